// Reads a pool from standard input, as lines `name = value`, and prints how it counts subframes.
#![tactic(auto)]

use anyhow::anyhow;
use input::Input;
use pool::Pool;
use std::io;

mod input;

// R, V, T, P_step and W of the pool, and the index of the first set subframe not before the start.
fn print_numbers(rt: &HostRuntime, pool: &Pool, start: u64) -> anyhow::Result<()> {
    println!(rt; "R {}", pool.remaining())?;
    println!(rt; "V {}", pool.left_over())?;
    println!(rt; "T {}", pool.cycle())?;
    println!(rt; "P_step {}", pool.step())?;
    println!(rt; "W {}", pool.window())?;
    println!(rt; "next {}", pool.next_index(start))?;
    Ok(())
}

// The next pool subframes not before the start, each with its index.
fn print_subframes(rt: &HostRuntime, pool: &Pool, start: u64, show: u64) -> anyhow::Result<()> {
    let listed = (start..u64::MAX)
        .filter_map(|subframe| Some((subframe, pool.index(subframe)?)))
        .filter(|(_, index)| pool.in_pool(*index))
        .take(show as usize);
    for (subframe, index) in listed {
        println!(rt; "{subframe} {index}")?;
    }
    Ok(())
}

// The input, read line by line.
fn read(text: &str) -> anyhow::Result<Input> {
    let mut input = Input::built_in();
    for (i, line) in text.lines().enumerate() {
        let number = i.saturating_add(1);
        input
            .take(line)
            .map_err(|fault| anyhow!("line {number}: {fault}: `{line}`"))?;
    }
    Ok(input)
}

fn run(rt: &HostRuntime) -> anyhow::Result<()> {
    let text = io::read_to_string(rt.alloc(), rt.stdin())?;
    let input = read(text.as_str())?;
    let mut pool = Pool::built_in();
    match pool.configure(&input.settings) {
        Ok(()) => {
            print_numbers(rt, &pool, input.start)?;
            print_subframes(rt, &pool, input.start, input.show)
        }
        Err(refusal) => {
            println!(rt; "refused {refusal}")?;
            Ok(())
        }
    }
}

fn main(rt: HostRuntime) -> anyhow::Result<()> {
    run(&rt)
}
