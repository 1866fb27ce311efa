// The program for places, run on input whose last line has no line feed.
#![tactic(auto)]

fn main(rt: HostRuntime) {
    lines::stream::answer_input(&rt);
}
