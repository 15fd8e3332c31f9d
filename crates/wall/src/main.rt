// Reads a saved image from standard input and prints the page for the office wall on standard output.
#![tactic(auto)]

mod show;

fn main(rt: HostRuntime) {
    show::show(rt.stdin(), rt.stdout());
}
