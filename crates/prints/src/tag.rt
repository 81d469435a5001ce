// The tags of nodes, for those who print them.

// What a node is: a form of a type, a type parameter, a parameter, or one of the five sorts of members.
#[derive(Clone, Copy, PartialEq, Eq)]
pub enum Tag {
    // what stands above the root, and what no node has
    Nothing = 0,
    Reference = 1,
    Keyword = 2,
    Literal = 3,
    Parens = 4,
    Union = 5,
    Intersection = 6,
    Array = 7,
    Indexed = 8,
    Conditional = 9,
    Infer = 10,
    Operator = 11,
    Function = 12,
    Constructor = 13,
    Mapped = 14,
    Template = 15,
    Predicate = 16,
    Typeof = 17,
    Import = 18,
    Tuple = 19,
    Optional = 20,
    Rest = 21,
    Named = 22,
    NonNull = 23,
    Nullable = 24,
    Object = 25,
    TypeParameter = 26,
    Parameter = 27,
    Property = 28,
    Method = 29,
    CallSignature = 30,
    ConstructSignature = 31,
    IndexSignature = 32,
}

// The tag of a number.
impl From<usize> for Tag {
    fn from(number: usize) -> Tag {
        match number {
            1 => Tag::Reference,
            2 => Tag::Keyword,
            3 => Tag::Literal,
            4 => Tag::Parens,
            5 => Tag::Union,
            6 => Tag::Intersection,
            7 => Tag::Array,
            8 => Tag::Indexed,
            9 => Tag::Conditional,
            10 => Tag::Infer,
            11 => Tag::Operator,
            12 => Tag::Function,
            13 => Tag::Constructor,
            14 => Tag::Mapped,
            15 => Tag::Template,
            16 => Tag::Predicate,
            17 => Tag::Typeof,
            18 => Tag::Import,
            19 => Tag::Tuple,
            20 => Tag::Optional,
            21 => Tag::Rest,
            22 => Tag::Named,
            23 => Tag::NonNull,
            24 => Tag::Nullable,
            25 => Tag::Object,
            26 => Tag::TypeParameter,
            27 => Tag::Parameter,
            28 => Tag::Property,
            29 => Tag::Method,
            30 => Tag::CallSignature,
            31 => Tag::ConstructSignature,
            32 => Tag::IndexSignature,
            _ => Tag::Nothing,
        }
    }
}

impl Tag {
    // Its name.
    pub fn name(self) -> &'static str {
        match self {
            Tag::Nothing => "",
            Tag::Reference => "reference",
            Tag::Keyword => "keyword",
            Tag::Literal => "literal",
            Tag::Parens => "parens",
            Tag::Union => "union",
            Tag::Intersection => "intersection",
            Tag::Array => "array",
            Tag::Indexed => "indexed",
            Tag::Conditional => "conditional",
            Tag::Infer => "infer",
            Tag::Operator => "operator",
            Tag::Function => "function",
            Tag::Constructor => "constructor",
            Tag::Mapped => "mapped",
            Tag::Template => "template",
            Tag::Predicate => "predicate",
            Tag::Typeof => "typeof",
            Tag::Import => "import",
            Tag::Tuple => "tuple",
            Tag::Optional => "optional",
            Tag::Rest => "rest",
            Tag::Named => "named",
            Tag::NonNull => "non-null",
            Tag::Nullable => "nullable",
            Tag::Object => "object",
            Tag::TypeParameter => "type parameter",
            Tag::Parameter => "parameter",
            Tag::Property => "property",
            Tag::Method => "method",
            Tag::CallSignature => "call signature",
            Tag::ConstructSignature => "construct signature",
            Tag::IndexSignature => "index signature",
        }
    }

    // Whether its node is known by its spelling or its word.
    pub fn is_plain(self) -> bool {
        matches!(
            self,
            Tag::Nothing | Tag::Reference | Tag::Keyword | Tag::Literal
        )
    }

    // Whether its node has type parameters, parameters and a result.
    pub fn is_signature(self) -> bool {
        matches!(
            self,
            Tag::Function
                | Tag::Constructor
                | Tag::Method
                | Tag::CallSignature
                | Tag::ConstructSignature
        )
    }

    // Whether it is a member with a key.
    pub fn is_keyed(self) -> bool {
        matches!(self, Tag::Property | Tag::Method)
    }
}
