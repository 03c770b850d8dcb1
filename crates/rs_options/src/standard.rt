//! The standards by which faults in messages are handled, by their names on a command line (our choice).

ghost use Rattle.std.specs.Prelude.{◌≡◌, ◌≢◌, IfSome, None};
ghost use Rattle.rs_options.specs.Standard.{standard_name};
ghost use Rattle.rs_update.specs.declared.errors.Errors.TheVariants.{Rfc4271, Rfc7606};

use rs_update::Errors;

/// The standard that a word of a command line names: `rfc4271` or `rfc7606`; none if it is another word.
pub fn standard_of(word: &str) -> Option<Errors>
    ensures named { IfSome result (λ errors. word.now ≡ standard_name errors) }
    ensures none { result ≡ None → (word.now ≢ standard_name Rfc4271) × (word.now ≢ standard_name Rfc7606) }
{
    match word {
        "rfc4271" => Some(Errors::Rfc4271),
        "rfc7606" => Some(Errors::Rfc7606),
        _ => None,
    }
}
