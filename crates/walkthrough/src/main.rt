// A walk through the core, each action printed: words to a block and back, to a message and back, through layers of a
// code, over ports that count, and training signals in a recording.
#![tactic(auto)]

mod group;
mod layers;
mod message;
mod outcome;
mod ports;
mod signals;

fn main(rt: HostRuntime) -> anyhow::Result<()> {
    group::show(&rt)?;
    message::show(&rt)?;
    layers::show(&rt)?;
    ports::show(&rt)?;
    signals::show(&rt)
}
