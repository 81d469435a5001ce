// The refusals of document 01, under what they refuse.
ghost use Rattle.std.specs.Prelude.{◌≡◌};
ghost use Rattle.words.specs.Refusal.{number_of};

#[derive(Clone, Copy, Debug, PartialEq, Eq)]
pub enum Refusal {
    BadList = 1,
    BadToken = 2,
    // no rule takes the token
    Unexpected = 3,
    // a type rule opens that is one too many
    TooDeep = 5,
    TooTall = 6,
    TooLong = 7,
    NoRoom = 8,
    ManyNotes = 9,
    BadKey = 10,
    // what does not fit the words or bytes lent for it
    NoSpace = 11,
    // a `?`, `!` or `*` before a type
    PrefixMark = 20,
    // a modifier word before a parameter
    ParameterModifier = 21,
    // a default for a parameter
    DefaultValue = 22,
    // a `this` that is not the first parameter, or a rest
    MisplacedThis = 23,
    // a comma after a rest parameter
    RestNotLast = 24,
    // const, in, or out before a type parameter
    TypeParameterModifier = 25,
    // an import from something that is no string
    ImportSource = 26,
    // a comma after an import's source
    ImportOptions = 27,
    // a trial opens that is one too many
    ManyTrials = 28,
    // more pairs than the list has room for
    ManyDifferences = 29,
    // a member with a computed name, an accessor, or a modifier other than readonly
    MemberForm = 31,
}

impl Refusal {
    // Its number in document 01.
    pub fn number(self) -> usize
        ensures { result ≡ number_of self }
    {
        self as usize
    }
}
