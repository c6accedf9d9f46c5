// The cases of the paper that no theorem covers, and a hundred files, sound and damaged. What it must write stands in
// `stdout`, which tools/cases.py makes from the paper alone, with the files.
#![tactic(auto)]

mod files;
mod rooms;
mod worked;

fn main(rt: HostRuntime) {
    worked::run(&rt);
    files::run(&rt);
}
