// What a caller may choose, in one word.
ghost use Rattle.std.specs.Prelude.{◌≡◌};
ghost use Rattle.told.specs.Options.{preserve_parens};

// Whether brackets are kept: the lowest bit.
pub fn preserve_parens(options: u64) -> bool
    ensures { result ≡ preserve_parens options }
{
    options % 2 == 1
}
