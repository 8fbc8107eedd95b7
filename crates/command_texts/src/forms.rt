ghost use Rattle.std.specs.Prelude.{◌≡◌};
ghost use Rattle.command_texts.specs.Forms.{forms, forms_by};

/// A command's word, its form, and what it does.
pub type Form = (&'static str, &'static str, &'static str);

/// The commands.
pub const FORMS: [Form; 14] = [
    (
        "compile",
        "compile SRC AMX [--compact]",
        "compiles a source with the files that it includes, and puts its file",
    ),
    (
        "go",
        "go SRC AMX [SCRIPT] [--steps N] [--sleeps M] [--count]",
        "compiles a source, puts its file, and runs that",
    ),
    (
        "verify",
        "verify AMX",
        "says whether a file is valid, whoever made it, or its first fault and the place",
    ),
    ("list", "list AMX", "prints a file as text"),
    (
        "sizes",
        "sizes AMX",
        "prints how many bytes the parts of a file and of its machine take",
    ),
    (
        "assemble",
        "assemble TEXT AMX [--compact]",
        "makes the file that is listed with a text, and puts it",
    ),
    (
        "run",
        "run AMX SCRIPT IMAGE [--steps N] [--entry NAME] [--count]",
        "runs a file from an entry; where it sleeps, puts the image of its machine",
    ),
    (
        "resume",
        "resume AMX SCRIPT IMAGE [--steps N] [--count]",
        "goes on from an image",
    ),
    (
        "many",
        "many PLAN",
        "runs the machines of a plan side by side, by the events that it lists",
    ),
    (
        "sample",
        "sample K AMX",
        "makes a program of K functions, puts its file, and runs and counts it",
    ),
    (
        "usage",
        "usage SRC",
        "tells how much room a source's program needs, and the calls that need it",
    ),
    (
        "explain",
        "explain [K]",
        "tells what a number says, what gives it, and its cure; or lists all numbers",
    ),
    (
        "help",
        "help [COMMAND]",
        "prints the form of each command, or of this one with what it does",
    ),
    (
        "version",
        "version",
        "prints the versions of the program, the language, files and images",
    ),
];

/// These rows.
#[tactic(auto, unfolding(crate::specs::Forms::forms))]
pub fn forms() -> &'static [Form]
    ensures { forms_by result.now ≡ forms }
{
    &FORMS
}
