// Constant tables of the fixed spellings. Each is proved, where it is handed out, to be what the definitions say.

// The fixed spellings, one after the other in the order of their kinds.
pub static LETTERS: [u8; 189] =
    *b"{}[]()<><<<=<<=|&?:,;....=>=!-+*anybigintbooleannevernumberobjectstringsymbolundefinedunknownabstractasassertsinferiskeyofoutreadonlyuniqueextendsfalseimportinnewnullthistruetypeofvoidconst";

// Where each kind's fixed spelling begins among the letters, times 16, and its length; length 0 where it has none.
pub static PLACES: [u16; 128] = [
    0, 0, 0, 0, 0, 0, 0, 0, 0, 0, 0, 0, 0, 0, 0, 0, 1, 17, 33, 49, 65, 81, 97, 113, 130, 162, 195,
    241, 257, 273, 289, 305, 321, 337, 355, 402, 433, 449, 465, 481, 497, 512, 512, 512, 512, 512,
    512, 512, 512, 512, 512, 512, 512, 512, 512, 512, 512, 512, 512, 512, 512, 512, 512, 512, 515,
    566, 663, 773, 854, 950, 1046, 1142, 1241, 1383, 1496, 1618, 1655, 1765, 1842, 1877, 1955,
    2008, 2134, 2224, 2224, 2224, 2224, 2224, 2224, 2224, 2224, 2224, 2224, 2224, 2224, 2224, 2231,
    2341, 2422, 2514, 2547, 2596, 2660, 2724, 2790, 2884, 2949, 3024, 3024, 3024, 3024, 3024, 3024,
    3024, 3024, 3024, 3024, 3024, 3024, 3024, 3024, 3024, 3024, 3024, 3024, 3024, 3024, 3024,
];

// The one kind whose fixed spelling can have a length, a first and a last byte, at the place that these sum up to; 0 where none can.
pub static GUESSES: [u8; 128] = [
    0, 18, 65, 96, 0, 74, 0, 106, 0, 70, 0, 0, 0, 29, 0, 78, 100, 0, 25, 80, 0, 0, 105, 36, 0, 0,
    26, 0, 27, 0, 101, 0, 0, 32, 33, 37, 0, 0, 0, 75, 0, 99, 103, 69, 31, 0, 102, 0, 0, 72, 34, 0,
    0, 0, 40, 0, 0, 0, 67, 0, 0, 0, 0, 0, 20, 0, 68, 64, 0, 0, 0, 82, 81, 0, 28, 0, 0, 35, 0, 76,
    0, 0, 23, 0, 0, 0, 0, 17, 0, 0, 0, 0, 22, 98, 0, 0, 0, 16, 0, 0, 24, 0, 30, 38, 104, 0, 0, 79,
    0, 73, 0, 71, 0, 39, 0, 0, 0, 0, 66, 19, 0, 77, 0, 21, 97, 0, 0, 0,
];
