//! Texts of worked rows, and their programs.

use std::alloc::Global;
use std::process::Abort;
use sts_asm::assemble;
use sts_verify::{Verified, verify};

/// Seven.
pub const SEVEN: &str = "func main 0\npush 7\nret\nend\n";

/// Two subtasks double 20 and 1, and `main` adds up.
pub const DOUBLES: &str = "\
    func work 1\nload 0\npush 2\nmul\nret\nend\n\
    func main 0\nopen s0 all\npush 20\nfork s0 work s1\npush 1\nfork s0 work s2\n\
    join s0 bad - intr\npop\nget s1\nget s2\nadd\nclose s0\nret\n\
    bad:\nclose s0\nfail\n\
    intr:\npush 0\nclose s0\nfail\nend\n\
";

/// A scope with a timeout, and one subtask of this text.
macro_rules! timed {
    ($kid:literal) => {
        concat!(
            $kid,
            "func main 0\nopen s0 awaitall timed\nfork s0 kid _\njoin s0 - late intr\n\
            close s0\npush 1\nret\n\
            late:\nclose s0\npush 2\nret\n\
            intr:\npush 0\nclose s0\nfail\nend\n"
        )
    };
}

/// A scope with a timeout, and one subtask.
pub const TIMED: &str = timed!("func kid 0\npush 0\nret\nend\n");

/// A thousand scopes in a row, each with one subtask.
pub const THOUSAND: &str = "\
    func kid 0\npush 0\nret\nend\n\
    func main 0\npush 1000\ntimes 1000\nopen s0 awaitall\nfork s0 kid _\njoin s0 - - intr\n\
    close s0\njmp go\n\
    intr:\nclose s0\n\
    go:\nnext\npush 5\nret\nend\n\
";

/// A subtask reads what `main` has bound.
pub const BOUND: &str = "\
    func kid 0 needs 2\nread 2\nret\nend\n\
    func main 0\npush 6\nbind 2\nopen s0 any\nfork s0 kid _\njoin s0 bad - intr\n\
    close s0\nunbind\nret\n\
    bad:\nclose s0\nunbind\nfail\n\
    intr:\npush 0\nclose s0\nunbind\nfail\nend\n\
";

/// So many subtasks of one scope, which a loop forks.
macro_rules! looped {
    ($count:literal) => {
        concat!(
            "func kid 0\npush 0\nret\nend\n",
            "func main 0\nopen s0 awaitall\npush ",
            $count,
            "\ntimes ",
            $count,
            "\nfork s0 kid _\nnext\njoin s0 - - intr\n\
            close s0\npush 1\nret\n\
            intr:\npush 0\nclose s0\nfail\nend\n"
        )
    };
}

/// Two subtasks that a loop forks.
pub const LOOPED: &str = looped!("2");

/// A hundred thousand scopes in a row, each without a subtask.
pub const TURNS: &str = "\
    func main 0\npush 10\ntimes 10\npush 10000\ntimes 10000\nopen s0 awaitall\n\
    join s0 - - intr\nclose s0\njmp go\n\
    intr:\nclose s0\n\
    go:\nnext\nnext\npush 0\nret\nend\n\
";

/// Two subtasks, each with a loop of fifty thousand steps of its own.
pub const LOOPS: &str = "\
    func work 0\npush 10000\ntimes 10000\nload 0\npush 1\nadd\nstore 0\nnext\nload 0\nret\nend\n\
    func main 0\nopen s0 all\nfork s0 work s1\nfork s0 work s2\njoin s0 bad - intr\n\
    get s1\nget s2\nadd\nclose s0\nret\n\
    bad:\nclose s0\nfail\n\
    intr:\npush 0\nclose s0\nfail\nend\n\
";

/// A subtask with a loop of fifty thousand steps of its own.
pub const LOOP: &str = "\
    func work 0\npush 10000\ntimes 10000\nload 0\npush 1\nadd\nstore 0\nnext\nload 0\nret\nend\n\
    func main 0\nopen s0 all\nfork s0 work s1\njoin s0 bad - intr\n\
    pop\nget s1\nclose s0\nret\n\
    bad:\nclose s0\nfail\n\
    intr:\npush 0\nclose s0\nfail\nend\n\
";

/// A scope with a timeout, and one subtask that makes two hundred thousand steps.
pub const LATE: &str = timed!(
    "func kid 0\npush 4\ntimes 4\npush 10000\ntimes 10000\nload 0\npush 1\nadd\nstore 0\nnext\nnext\n\
    load 0\nret\nend\n"
);

/// Two subtasks. `main` gives 1 if it was interrupted before its first step. It gives 10 more if it
/// was interrupted while it waited for them, or before it asks once more behind the `close`.
pub const GREETED: &str = "\
    func kid 0\npush 0\nret\nend\n\
    func main 0\ninterrupted\nstore 0\nopen s0 awaitall\nfork s0 kid _\nfork s0 kid _\njoin s0 - - intr\n\
    close s0\ninterrupted\npush 10\nmul\nload 0\nadd\nret\n\
    intr:\nclose s0\nload 0\npush 10\nadd\nret\nend\n\
";

/// Sixteen subtasks that a loop forks.
pub const WIDE: &str = looped!("16");

/// Sixty subtasks of one scope, each with five hundred local instructions in a row.
pub const ROWS: &str = "\
    func work 0\npush 100\ntimes 100\nload 0\npush 1\nadd\nstore 0\nnext\nload 0\nret\nend\n\
    func main 0\nopen s0 awaitall\npush 60\ntimes 60\nfork s0 work _\nnext\njoin s0 - - intr\n\
    close s0\npush 1\nret\n\
    intr:\npush 0\nclose s0\nfail\nend\n\
";

/// Sixty-four subtasks of one scope, each with three rows of 604 local instructions: 1,819 steps.
pub const MANY_ROWS: &str = "\
    func work 0\npush 3\ntimes 3\ninterrupted\npop\npush 200\ntimes 200\npush 1\npop\nnext\nnext\n\
    push 1\nret\nend\n\
    func main 0\nopen s0 all\npush 64\ntimes 64\nfork s0 work _\nnext\njoin s0 bad - intr\n\
    close s0\nret\n\
    bad:\nclose s0\nfail\n\
    intr:\npush 0\nclose s0\nfail\nend\n\
";

/// A hundred scopes in a row, each with one short subtask (1 to 100), and then two subtasks with
/// two hundred thousand steps each (101 and 102).
pub const SHORT_THEN_LONG: &str = "\
    func kid 0\npush 0\nret\nend\n\
    func work 0\npush 4\ntimes 4\npush 10000\ntimes 10000\nload 0\npush 1\nadd\nstore 0\nnext\nnext\n\
    load 0\nret\nend\n\
    func main 0\npush 100\ntimes 100\nopen s0 awaitall\nfork s0 kid _\njoin s0 - - intr\n\
    close s0\njmp go\n\
    intr:\nclose s0\n\
    go:\nnext\nopen s0 awaitall\nfork s0 work _\nfork s0 work _\njoin s0 - - stop\n\
    close s0\npush 3\nret\n\
    stop:\npush 0\nclose s0\nfail\nend\n\
";

/// The program of a text. The test fails if it isn't accepted.
pub fn accepted<R: Abort>(rt: &R, alloc: Global, text: &str) -> Verified {
    let program = assemble(alloc, text.as_bytes()).expect(rt, "the text of a program");
    match verify(alloc, program) {
        Ok(verified) => verified,
        Err(_) => panic!(rt; "the program is not accepted"),
    }
}
