// The two files that a program was started on.
ghost use Rattle.std.specs.Prelude.{◌≡◌, ◌≤◌, ◌<◌, length, IfSome};
ghost use Rattle.shell.specs.Arguments.{Name, Names};

use crate::say;
use std::env::{Env, FillError};

// The names of two files: the lengths that they have in two buffers.
#[derive(Clone, Copy)]
pub struct Files {
    pub first: usize,
    pub second: usize,
}

// Puts argument i, which is called so, into the buffer, and answers its length. Where it names no file, says why not: it is too long; else the usage, where it is
// missing or empty, or begins as an option does.
fn take_name(
    env: &impl Env,
    err: &impl Print,
    i: usize,
    called: &[u8],
    usage: &[u8],
    name: &mut [u8],
) -> Option<usize>
    ensures { IfSome result (λ n. (0 < n) × Name n name.new) }
{
    match env.arg(i, name) {
        Ok(n) if n > 0 && name[0] != b'-' => return Some(n),
        Err(FillError::TooLong) => say(
            err,
            called,
            b" is longer than 4,096 bytes, which no name of a file is; nothing is read\n",
        ),
        Ok(_) | Err(FillError::NotPresent) => say(err, usage, b""),
    }
    None
}

// Whether the program was started with an argument i, an empty one too.
fn has_argument(env: &impl Env, i: usize) -> bool {
    !matches!(env.arg(i, &mut []), Err(FillError::NotPresent))
}

// How many arguments the program was started with, its own name among them, or 4 where they are more.
pub fn argument_count(env: &impl Env) -> usize
    ensures { result ≤ 4 }
{
    (0..4).position(|i| !has_argument(env, i)).unwrap_or(4)
}

// The files that the program was started on: the two usual ones, `usual` and `other`, where it has no arguments, else the two that these name. Where it is
// started on none, that is said: the usage, or that an argument is too long.
pub fn files_named(
    env: &impl Env,
    err: &impl Print,
    usual: &[u8],
    other: &[u8],
    usage: &[u8],
    first: &mut [u8],
    second: &mut [u8],
) -> Option<Files>
    requires { (length usual.now ≤ 4096) × (length other.now ≤ 4096) × (length first.old ≡ 4096) × (length second.old ≡ 4096) }
    ensures { IfSome result (λ files. Names usual.now other.now files.first first.new files.second second.new) }
{
    match argument_count(env) {
        0 | 1 => Some(Files {
            first: text::put_bytes(first, 0, usual),
            second: text::put_bytes(second, 0, other),
        }),
        3 => Some(Files {
            first: take_name(env, err, 1, b"argument 1", usage, first)?,
            second: take_name(env, err, 2, b"argument 2", usage, second)?,
        }),
        _ => {
            say(err, usage, b"");
            None
        }
    }
}
