ghost use Rattle.std.specs.Prelude.{◌≡◌};
ghost use Rattle.command_texts.specs.Rows.{rows_by, status_rows};

use super::kind::Kind;
use super::row::Row;

/// The statuses of the program.
pub const STATUSES: [Row; 17] = [
    (
        Kind::Status,
        0,
        "it was done: `valid`, a listing, `ok N bytes`, `done V`, `exit V tag T`",
        "`compile hello.p hello.amx`",
        "nothing is to be cured",
    ),
    (
        Kind::Status,
        1,
        "the source, or the text of `assemble`, is refused: `refused K at FILE:LINE`",
        "`compile one.p one.amx` with `main() { x; }` in one.p",
        "see the number K: `explain K`",
    ),
    (
        Kind::Status,
        2,
        "`bad words`: they are no command",
        "`go hello.p`",
        "see the forms: `help`; names stand before options, and none is empty or begins with \
            `--`",
    ),
    (
        Kind::Status,
        3,
        "`no file NAME`: a file that the command reads isn't there",
        "`verify none.amx`",
        "write the name of a file, from the folder in which the program is started",
    ),
    (
        Kind::Status,
        4,
        "`too large NAME`: a source, an include, a text, a script or a plan above 16,777,216 \
            bytes, an AMX file above 67,108,864, an image above 167,772,160",
        "`verify` of a film",
        "name another file; split the source",
    ),
    (
        Kind::Status,
        5,
        "`file fault`: the host failed to read or to put a file",
        "`verify` of a folder",
        "mend the host's fault, as a full disk, and call again",
    ),
    (
        Kind::Status,
        6,
        "standard output failed",
        "`list hello.amx` into a full disk",
        "mend the host's fault, and call again",
    ),
    (
        Kind::Status,
        7,
        "`invalid K` or `invalid K at A`: the bytes are no valid AMX file",
        "`verify hello.p`",
        "see the number K: `explain K`",
    ),
    (
        Kind::Status,
        8,
        "`bad script K` or `bad script K FIELD`",
        "`go hello.p hello.amx hello.p`",
        "see the number K: `explain K`",
    ),
    (
        Kind::Status,
        9,
        "`bad image K` or `bad image 125 REG`",
        "`resume hello.amx script.json hello.p`",
        "see the number K: `explain K`",
    ),
    (
        Kind::Status,
        10,
        "`no entry NAME`: no public function has the name, or the file has no `main`",
        "`run hello.amx script.json hello.img --entry f`",
        "name a public function of the file",
    ),
    (
        Kind::Status,
        11,
        "`unregistered NAME`: a native that the script doesn't list, while its `others` is false",
        "`go hello.p hello.amx script.json` with `{}` in script.json",
        "list the native, or set `others` to true",
    ),
    (
        Kind::Status,
        12,
        "`error C`: the run ended in an error of the machine",
        "`go bad.p bad.amx` with `main() { assert 0; }` in bad.p",
        "see the number C: `explain C`",
    ),
    (
        Kind::Status,
        13,
        "`steps`: the run did all its steps",
        "`go hello.p hello.amx --steps 5`",
        "give it more steps, or end its loop",
    ),
    (
        Kind::Status,
        14,
        "the line of a sleep: it sleeps; `run` and `resume` have put its image",
        "`go nap.p nap.amx --sleeps 0` with `main() { sleep 1; }` in nap.p",
        "go on by `resume`, or give `go` more `--sleeps`",
    ),
    (
        Kind::Status,
        15,
        "`no memory`",
        "a process with too little memory",
        "give the process more memory",
    ),
    (
        Kind::Status,
        16,
        "`bad plan LINE`: the first line that no plan with the lines before it can have, or the \
            one behind the last, where a line or a line's end is missing",
        "`many hello.p`",
        "write the line as `machine AMX SCRIPT`, `start I NAME` or `go I N`, machines first",
    ),
];

/// These rows.
#[tactic(auto, unfolding(crate::specs::Rows::status_rows))]
pub fn statuses() -> &'static [Row]
    ensures { rows_by result.now ≡ status_rows }
{
    &STATUSES
}
