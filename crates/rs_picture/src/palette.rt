//! The colours of pictures.
//!
//! Our choices: bars are blue, green, orange and red, which differ in lightness too, so that those who see few colours
//! can tell them apart. Texts have a contrast of at least 4.5 to what is behind them, in the light scheme and in the
//! dark one.

/// The rules of a style sheet for the classes of pictures: bars (`kb`, `kg`, `ko`, `kr`), marks (`km`), lines (`line`),
/// the background (`back`), and texts, those on bars too (`on`).
pub const PALETTE: &str = "
svg text,.km{fill:#1b2126}
.back,svg .on{fill:#fff}
.line{fill:#505a64}
.kb{fill:#1263a8;color:#1263a8}.kg{fill:#0a6b50}.ko{fill:#9c4f00}.kr{fill:#b0210f;color:#b0210f}
@media (prefers-color-scheme:dark){
svg text,.km{fill:#e7ecf0}
.back,svg .on{fill:#11161b}
.line{fill:#a5b0bb}
.kb{fill:#5aa9ea;color:#5aa9ea}.kg{fill:#3fc39a}.ko{fill:#f0a04b}.kr{fill:#ff7f6a;color:#ff7f6a}
}
";
