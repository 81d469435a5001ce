// The constant table of the node table's words. It is proved, where it is handed out, to be what the definitions say.
use crate::forms::TABLE;

// The width of a list's count.
const COUNT: u16 = 12;

// The forms, four words each: operation, width and two numbers; then the lists of the forms that choices lead to.
pub const WORDS: [u16; TABLE] = [
    0, 14, 7, 86, // 0 never; the steps of the longest form, the classes, the forms
    5, 6, 344, 26, // 1 class 0: a type
    5, 6, 370, 26, // 2 class 1: an element of a tuple
    5, 6, 396, 26, // 3 class 2: under a rest
    5, 6, 422, 26, // 4 class 3: under a name
    5, 0, 448, 1, // 5 class 4: a type parameter
    5, 0, 449, 1, // 6 class 5: a parameter
    5, 3, 450, 5, // 7 class 6: a member of an object type
    1, 0, 0, 0, // 8 no more
    3, 0, 0, 8, // 9 types
    5, 1, 455, 2, // 10 opt type
    6, COUNT, 0, 9, // 11 args: how many
    5, 1, 457, 2, // 12 opt args
    2, 16, 0, 12, // 13 names, opt args
    6, COUNT, 1, 13, // 14 1, 17: how many names
    5, 4, 459, 13, // 15 2: which keyword
    4, 16, 0, 8, // 16 a spelling
    5, 3, 472, 7, // 17 3: which literal
    6, COUNT, 1, 9, // 18 5, 6: how many parts
    3, 0, 0, 9, // 19 8: two types
    3, 0, 0, 19, // 20 three types
    3, 0, 0, 20, // 21 9: four types
    4, 16, 0, 10, // 22 10: a name, opt type
    5, 2, 479, 3, // 23 11: which operator, a type
    3, 0, 5, 9, // 24 parameters, the return
    6, COUNT, 0, 24, // 25 how many parameters
    3, 0, 0, 25, // 26 the type of this
    5, 1, 482, 2, // 27 opt type of this
    5, 1, 484, 2, // 28 the bit of this
    3, 0, 4, 28, // 29 type parameters, this
    6, COUNT, 0, 29, // 30 how many type parameters
    5, 1, 486, 2, // 31 12: opt type parameters
    3, 0, 4, 25, // 32 type parameters, parameters
    6, COUNT, 0, 32, // 33 how many type parameters
    5, 1, 488, 2, // 34 opt type parameters
    7, 1, 0, 34, // 35 13: the abstract bit
    5, 2, 490, 4, // 36 which `?`, opt type
    3, 0, 0, 36, // 37 the name type
    5, 1, 494, 2, // 38 opt name type
    3, 0, 0, 38, // 39 the constraint
    4, 16, 0, 39, // 40 the key
    5, 2, 496, 4, // 41 14: which readonly
    3, 16, 0, 8, // 42 types, each with a spelling
    4, 16, 0, 42, // 43 the first spelling
    6, COUNT, 0, 43, // 44 15: how many types
    5, 1, 500, 2, // 45 a type that is needed
    4, 16, 0, 45, // 46 a name, a type
    5, 1, 502, 2, // 47 the bit of this: a type
    5, 1, 504, 2, // 48 the bit of this: opt type
    5, 1, 506, 2, // 49 16: the asserts bit
    6, COUNT, 0, 13, // 50 how many names
    4, 16, 0, 50, // 51 the source
    7, 1, 0, 51, // 52 18: the typeof bit
    3, 0, 1, 8, // 53 elements
    6, COUNT, 0, 53, // 54 19: how many elements
    3, 0, 2, 8, // 55 21: what is under a rest
    3, 0, 3, 8, // 56 what is under a name
    7, 1, 0, 56, // 57 the `?` bit
    4, 16, 0, 57, // 58 22: a name
    3, 0, 0, 10, // 59 a type, opt type
    5, 1, 508, 2, // 60 opt type, opt type
    4, 16, 0, 60, // 61 a type parameter: its name
    7, 1, 0, 10, // 62 the `?` bit, opt type
    4, 16, 0, 62, // 63 the name
    7, 1, 0, 63, // 64 a parameter: the rest bit
    3, 0, 6, 8, // 65 members
    6, COUNT, 0, 65, // 66 25: how many members
    5, 2, 510, 3, // 67 which key, its spelling, the `?` bit, opt type
    7, 1, 0, 67, // 68 0 property: the readonly bit
    3, 0, 5, 10, // 69 parameters, opt return
    6, COUNT, 0, 69, // 70 how many parameters
    3, 0, 0, 70, // 71 the type of this
    5, 1, 513, 2, // 72 opt type of this
    5, 1, 515, 2, // 73 the bit of this
    3, 0, 4, 73, // 74 type parameters, this
    6, COUNT, 0, 74, // 75 how many type parameters
    5, 1, 517, 2, // 76 2 call signature: opt type parameters
    7, 1, 0, 76, // 77 the `?` bit, what a call signature has
    4, 16, 0, 77, // 78 the spelling of a key
    5, 2, 519, 3, // 79 1 method: which key
    3, 0, 4, 70, // 80 type parameters, parameters
    6, COUNT, 0, 80, // 81 how many type parameters
    5, 1, 522, 2, // 82 3 construct signature: opt type parameters
    4, 16, 0, 19, // 83 the name of a parameter, two types
    5, 1, 524, 2, // 84 opt parameter, a type
    7, 1, 0, 84, // 85 4 index signature: the readonly bit
    0, 14, 15, 17, 9, 18, 18, 9, 19, 21, 22, 23, 31, 35, 41, 44, 49, 14, 52, 54, 0, 0, 0, 9, 9, 66, // from 1
    0, 14, 15, 17, 9, 18, 18, 9, 19, 21, 22, 23, 31, 35, 41, 44, 49, 14, 52, 54, 9, 55, 58, 9, 9,
    66, // from 2
    0, 14, 15, 17, 9, 18, 18, 9, 19, 21, 22, 23, 31, 35, 41, 44, 49, 14, 52, 54, 0, 0, 58, 9, 9,
    66, // from 3
    0, 14, 15, 17, 9, 18, 18, 9, 19, 21, 22, 23, 31, 35, 41, 44, 49, 14, 52, 54, 9, 55, 0, 9, 9,
    66, // from 4
    61, // from 5
    64, // from 6
    68, 79, 76, 82, 85, // from 7
    8, 9, // from 10
    8, 11, // from 12
    8, 8, 8, 8, 8, 8, 8, 8, 8, 8, 8, 8, 8, // from 15
    16, 16, 16, 8, 8, 16, 16, // from 17
    9, 9, 9, // from 23
    25, 26, // from 27
    25, 27, // from 28
    28, 30, // from 31
    25, 33, // from 34
    10, 10, 10, 10, // from 36
    36, 37, // from 38
    40, 40, 40, 40, // from 41
    0, 9, // from 45
    46, 45, // from 47
    22, 10, // from 48
    47, 48, // from 49
    10, 59, // from 60
    63, 63, 63, // from 67
    70, 71, // from 72
    70, 72, // from 73
    73, 75, // from 76
    78, 78, 78, // from 79
    70, 81, // from 82
    9, 83, // from 84
];
