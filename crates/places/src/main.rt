// The program for places: for each line of eight hexadecimal digits on standard input, the binary32 pattern, its ufp, ulp,
// predecessor and successor.
#![tactic(auto)]

fn main(rt: HostRuntime) {
    lines::stream::answer_input(&rt);
}
