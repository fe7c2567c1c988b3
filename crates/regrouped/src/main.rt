// Is regrouped.txt a lawful regrouping of run.txt, both in the current folder, or of two files that are named the second one of the first? Prints a line for
// neighbouring stations and for each refusal number at which they part, and the verdict.
#![tactic(auto)]

use listfile::LIST_WORDS;

fn main(rt: HostRuntime) {
    let err = rt.stderr();
    let mut text = [0u8; 65536];
    let mut line = [0u8; 81];
    let mut first = [0u32; LIST_WORDS];
    let mut second = [0u32; LIST_WORDS];
    let mut out = [0u8; 4096];
    let mut first_path = [0u8; 4096];
    let mut second_path = [0u8; 4096];
    let Some(files) = shell::files_named(
        &rt,
        &err,
        b"run.txt",
        b"regrouped.txt",
        b"usage: regrouped                 compares regrouped.txt with run.txt in the current folder\n       regrouped FIRST SECOND    compares the second file with the first; a file -x is named ./-x\n",
        &mut first_path,
        &mut second_path,
    ) else {
        return;
    };
    let _ = regrouping::compare_files(
        &rt,
        &err,
        &first_path[..files.first],
        &second_path[..files.second],
        &mut text,
        &mut line,
        &mut first,
        &mut second,
        &mut out,
    );
}
