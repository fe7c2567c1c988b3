// Rehearses the run of run.txt on the crate of crate.txt, both in the current folder, or of two files that are named, and prints the sheet.
#![tactic(auto)]

fn main(rt: HostRuntime) {
    let err = rt.stderr();
    let mut text = [0u8; 65536];
    let mut line = [0u8; 81];
    let mut memory = [0u32; 768];
    let mut out = [0u8; 65536];
    let mut crate_path = [0u8; 4096];
    let mut run_path = [0u8; 4096];
    let Some(files) = shell::files_named(
        &rt,
        &err,
        b"crate.txt",
        b"run.txt",
        b"usage: rehearse              reads crate.txt and run.txt in the current folder\n       rehearse CRATE RUN    reads the two files named; a file -x is named ./-x\n",
        &mut crate_path,
        &mut run_path,
    ) else {
        return;
    };
    let _ = shell::rehearse(
        &rt,
        &err,
        &crate_path[..files.first],
        &run_path[..files.second],
        &mut text,
        &mut line,
        &mut memory,
        &mut out,
    );
}
