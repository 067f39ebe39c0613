// The read program: a litmus text from standard input becomes table.rec of the current folder, or is told where it goes wrong.
#![tactic(auto)]

mod refusal;
mod show;

fn main(rt: HostRuntime) {
    show::show(&rt);
}
