// The limits of document 01, each once, under the name of what it limits.
ghost use Rattle.std.specs.Prelude.{◌≡◌};
ghost use Rattle.words.specs.Limits.{most_text, most_tokens, most_open, tallest, longest, most_notes, most_key, most_trials, most_entered};

#[derive(Clone, Copy)]
pub struct Text {}

impl Text {
    pub const MOST: usize = 65535;
}

#[derive(Clone, Copy)]
pub struct Tokens {}

impl Tokens {
    pub const MOST: usize = 16384;
}

// Type rules that are open at once.
#[derive(Clone, Copy)]
pub struct OpenRules {}

impl OpenRules {
    pub const MOST: usize = 64;
}

#[derive(Clone, Copy)]
pub struct Tree {}

impl Tree {
    pub const TALLEST: usize = 256;
}

#[derive(Clone, Copy)]
pub struct List {}

impl List {
    pub const LONGEST: usize = 4095;
}

// Diagnostics of one reading.
#[derive(Clone, Copy)]
pub struct Notes {}

impl Notes {
    pub const MOST: usize = 32;
}

#[derive(Clone, Copy)]
pub struct Key {}

impl Key {
    pub const MOST: usize = 262144;
}

// Constraints of infer that are tried at once.
#[derive(Clone, Copy)]
pub struct Trials {}

impl Trials {
    pub const MOST: usize = 4;
}

// How far the type rules that were entered are counted.
#[derive(Clone, Copy)]
pub struct Entered {}

impl Entered {
    pub const MOST: usize = 4294967295;
}

// All of them: what the code has is what the definitions have.
#[derive(Clone, Copy)]
pub struct Limits {
    pub text: usize,
    pub tokens: usize,
    pub open: usize,
    pub tall: usize,
    pub list: usize,
    pub notes: usize,
    pub key: usize,
    pub trials: usize,
    pub entered: usize,
}

impl Limits {
    pub fn all() -> Limits
        ensures text_value { (result.text ≡ most_text) × (result.tokens ≡ most_tokens) × (result.open ≡ most_open) × (result.tall ≡ tallest) × (result.list ≡ longest) }
        ensures notes_value { (result.notes ≡ most_notes) × (result.key ≡ most_key) × (result.trials ≡ most_trials) × (result.entered ≡ most_entered) }
    {
        Limits {
            text: Text::MOST,
            tokens: Tokens::MOST,
            open: OpenRules::MOST,
            tall: Tree::TALLEST,
            list: List::LONGEST,
            notes: Notes::MOST,
            key: Key::MOST,
            trials: Trials::MOST,
            entered: Entered::MOST,
        }
    }
}
