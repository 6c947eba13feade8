//! The benches of docs/dev/BENCHES.md. Each prints what it finds.
//!
//! These are examples of benches in Rattle. `nvme_bench` is the program that executes operations from its input.
#![tactic(auto)]

mod by_hand;
mod by_list;
mod from_file;
mod in_memory;
mod own_bus;
mod without_bus;

fn main(rt: HostRuntime) -> anyhow::Result<()> {
    by_hand::identify(&rt)?;
    by_list::read_log(&rt)?;
    own_bus::count_turns(&rt)?;
    in_memory::run_two_lines(&rt)?;
    from_file::read_two(&rt)?;
    without_bus::count_namespaces(&rt)
}
