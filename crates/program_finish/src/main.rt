// The finish program, on table.rec and trace.rec of the current folder: finishes the run, writes finished.rec and says which steps were added.
#![tactic(auto)]

mod show;

fn main(rt: HostRuntime) {
    show::show(&rt);
}
