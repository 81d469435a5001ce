// The kinds of tokens, under the names that types.rs gives them, and the table of their classes.
ghost use Rattle.std.specs.Prelude.{◌≡◌, ◌<◌};
ghost use Rattle.words.specs.Class.{bit_of, class_words, in_class};

use crate::tables::CLASSES;

// Holds nothing: the kinds are its constants. They stay numbers, since a token word's kind is any byte that C hands in, and the clause `value` of `Cursor::kind` speaks of each.
#[derive(Clone, Copy)]
pub struct Kind {}

impl Kind {
    // the end
    pub const EOF: usize = 0;
    // a word
    pub const WORD: usize = 1;
    // a number
    pub const NUMBER_LITERAL: usize = 2;
    // a bigint literal
    pub const BIG_INT_LITERAL: usize = 3;
    // a string
    pub const STR: usize = 4;
    // a whole template
    pub const NO_SUBSTITUTION_TEMPLATE: usize = 5;
    // a template up to its first type
    pub const TEMPLATE_HEAD: usize = 6;
    // between two types
    pub const TEMPLATE_MIDDLE: usize = 7;
    // after the last
    pub const TEMPLATE_TAIL: usize = 8;
    // `{`
    pub const L_CURLY: usize = 16;
    // `}`
    pub const R_CURLY: usize = 17;
    // `[`
    pub const L_BRACK: usize = 18;
    // `]`
    pub const R_BRACK: usize = 19;
    // `(`
    pub const L_PAREN: usize = 20;
    // `)`
    pub const R_PAREN: usize = 21;
    // `<`
    pub const L_ANGLE: usize = 22;
    // `>`
    pub const R_ANGLE: usize = 23;
    // `<<`
    pub const SHIFT_LEFT: usize = 24;
    // `<=`
    pub const LT_EQ: usize = 25;
    // `<<=`
    pub const SHIFT_LEFT_EQ: usize = 26;
    // `|`
    pub const PIPE: usize = 27;
    // `&`
    pub const AMP: usize = 28;
    // `?`
    pub const QUESTION: usize = 29;
    // `:`
    pub const COLON: usize = 30;
    // `,`
    pub const COMMA: usize = 31;
    // `;`
    pub const SEMICOLON: usize = 32;
    // `.`
    pub const DOT: usize = 33;
    // `...`
    pub const DOT3: usize = 34;
    // `=>`
    pub const ARROW: usize = 35;
    // `=`
    pub const EQ: usize = 36;
    // `!`
    pub const BANG: usize = 37;
    // `-`
    pub const MINUS: usize = 38;
    // `+`
    pub const PLUS: usize = 39;
    // `*`
    pub const STAR: usize = 40;
    // any other mark
    pub const OTHER_MARK: usize = 41;
    // any
    pub const ANY: usize = 64;
    // bigint
    pub const BIG_INT: usize = 65;
    // boolean
    pub const BOOLEAN: usize = 66;
    // never
    pub const NEVER: usize = 67;
    // number
    pub const NUMBER: usize = 68;
    // object
    pub const OBJECT: usize = 69;
    // string
    pub const STRING: usize = 70;
    // symbol
    pub const SYMBOL: usize = 71;
    // undefined
    pub const UNDEFINED: usize = 72;
    // unknown
    pub const UNKNOWN: usize = 73;
    // abstract
    pub const ABSTRACT: usize = 74;
    // as
    pub const AS: usize = 75;
    // asserts
    pub const ASSERTS: usize = 76;
    // infer
    pub const INFER: usize = 77;
    // is
    pub const IS: usize = 78;
    // keyof
    pub const KEY_OF: usize = 79;
    // out
    pub const OUT: usize = 80;
    // readonly
    pub const READONLY: usize = 81;
    // unique
    pub const UNIQUE: usize = 82;
    // any other modifier word
    pub const OTHER_MODIFIER: usize = 83;
    // extends
    pub const EXTENDS: usize = 96;
    // false
    pub const FALSE: usize = 97;
    // import
    pub const IMPORT: usize = 98;
    // in
    pub const IN: usize = 99;
    // new
    pub const NEW: usize = 100;
    // null
    pub const NULL: usize = 101;
    // this
    pub const THIS: usize = 102;
    // true
    pub const TRUE: usize = 103;
    // typeof
    pub const TYPEOF: usize = 104;
    // void
    pub const VOID: usize = 105;
    // const
    pub const CONST: usize = 106;
    // any other reserved word
    pub const OTHER_RESERVED: usize = 107;
}

// The classes of kinds, under the bits of a class word.
#[derive(Clone, Copy, Debug, PartialEq, Eq)]
pub enum Class {
    BindingWord = 0,
    Name = 1,
    // what can begin a type whatever follows it
    Starter = 2,
    Modifier = 3,
    // the kinds that there are
    Good = 4,
    // spelled in one way
    Fixed = 5,
    // spelled in any way but the fixed ones
    Other = 6,
}

// The table over the 256 kind numbers.
pub fn class_words() -> &'static [u16; 256]
    ensures { result.now ≡ class_words }
{
    &CLASSES
}

// Whether a kind has the class of a bit.
pub fn in_class(kind: usize, class: Class) -> bool
    requires { kind < 256 }
    ensures { result ≡ in_class (bit_of class) kind }
{
    (class_words()[kind] >> class as usize) % 2 == 1
}
