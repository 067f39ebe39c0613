// The listing program, on table.rec and trace.rec of the current folder: reads them, checks, and writes the reply as text.
#![tactic(auto)]

mod show;

fn main(rt: HostRuntime) {
    show::show(&rt);
}
