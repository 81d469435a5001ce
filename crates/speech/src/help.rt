// The help.
use lines::line::Out;

const USES: &[u8] =
    b"typekey: the tree, the diagnostics and the key of a TypeScript type\n\n  typekey TYPE          read the type in the argument\n  typekey -             read the type on standard input\n  typekey --file F      read the type in the file F\n  typekey --batch       read one type a line on standard input\n  typekey --back HEX    take a key back (- for HEX: from standard input)\n  typekey --diff HEX HEX           say where the trees of two keys differ\n  typekey --diff-types TYPE TYPE   say where two types differ\n  typekey --help, typekey --version\n\n";

const OPTIONS: &[u8] =
    b"  --key                 the key alone, on one line (--batch does so by itself)\n  --tree                the tree alone\n  --json                the same as one JSON object on one line\n  --all                 key, tree, diagnostics, rest (what one type gets by itself)\n  --parens              keep brackets as nodes of the tree\n  --room N, --space N   lend only N nodes, only N bytes for the key (--back: spellings;\n                        --diff: room for N differences)\n  --                    what follows is a type, also if it begins with --\n\n";

const ANSWERS: &[u8] =
    b"The exit status is always 0. A script looks at the first word of the output, which\nis ok or refused (with --tree: refused, or the root's tag), or at the field ok of\nthe JSON. Where typekey was not used rightly, or a file cannot be read, the output\nis empty, and one line on standard error says why.\n\nA line of --key: ok KEY, then diagnostics N and rest at LINE:COLUMN if there are any;\nor: refused NAME at LINE:COLUMN. A rest is text behind the type, which was not read.\nIn --batch LINE is the number of the input's line; a carriage return breaks a type's line.\n\nA line of --diff: PATH: LEFT | RIGHT, the way from the root to a place where the trees\ndiffer, and what each of them has there; the same, where there is none; or left: or\nright: and a refusal or a rest. With --json a list of such places, with bits of the keys.\n";

pub fn help(out: &mut Out) {
    out.bytes(USES);
    out.bytes(OPTIONS);
    out.bytes(ANSWERS);
}

pub fn version(out: &mut Out) {
    out.bytes(b"typekey 0.1, edition 1 of the key\n");
}
