//! Characters in texts: where a text is cut, and which are of IPv6.

ghost use Rattle.std.specs.Prelude.{◌≡◌, ◌≢◌, ◌<◌, ◌++◌, ℕ, List, [], ◌∷◌, IfNone, IfSome};
ghost use Rattle.std.specs.List.{list_all};
ghost use Rattle.rs_import_files.specs.Texts.{Lacks, has_colon, is_ipv6, is_ipv6_octet};

// What stands before the first mark of a text, and what stands after it.
pub(crate) fn cut_at(text: &str, mark: char) -> Option<(&str, &str)>
    requires { mark < 128 }
    ensures parts { IfSome result (λ (front, back). text.now ≡ front.now ++ (mark ∷ []) ++ back.now) }
    ensures first { IfSome result (λ (front, back). Lacks mark front.now) }
    ensures none { IfNone result (Lacks mark text.now) }
{
    text.split_once(mark)
}

// A text without the mark at its end.
pub(crate) fn without_last(text: &str, mark: char) -> Option<&str>
    requires { mark < 128 }
    ensures found { IfSome result (λ front. text.now ≡ front.now ++ (mark ∷ [])) }
    ensures none { IfNone result ((front : List ℕ) → text.now ≢ front ++ (mark ∷ [])) }
{
    text.strip_suffix(mark)
}

// Whether a text has a colon.
pub(crate) fn has_colon(text: &str) -> bool
    ensures { result ≡ has_colon text.now }
{
    text.as_bytes().iter().any(|octet| *octet == b':')
}

// Whether a text is a pattern of IPv6, as far as its octets tell.
pub(crate) fn is_ipv6(text: &str) -> bool
    ensures { result ≡ is_ipv6 text.now }
{
    has_colon(text) && has_ipv6_octets(text)
}

// Whether each octet of a text may stand in a pattern of IPv6.
fn has_ipv6_octets(text: &str) -> bool
    ensures { result ≡ list_all is_ipv6_octet text.now }
{
    text.as_bytes().iter().all(|octet| is_ipv6_octet(*octet))
}

// Whether an octet may stand in a pattern of IPv6.
fn is_ipv6_octet(octet: u8) -> bool
    ensures { result ≡ is_ipv6_octet octet }
{
    octet.is_ascii_hexdigit()
        || octet == b':'
        || octet == b'.'
        || octet == b'/'
        || octet == b'+'
        || octet == b'{'
        || octet == b','
        || octet == b'}'
}
