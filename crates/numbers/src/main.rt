// Numbers pairs by a row register and a bucket register side by side, and prints what each gave.
#![tactic(auto)]

use anyhow::{anyhow, bail, ensure};
use numbers_text::{Answer, count_after, read_pair, word_for};
use registers::{Buckets, Pair, Register, Rows, Slot, side_by_side};
use std::alloc::{AllocError, Global};
use std::env;
use std::io::{BufRead, BufReader};
use typed::read_number;

const CAPACITY: u32 = 32_768;

const BUCKETS: u32 = 4_096;

const HELP: &str = "Usage: numbers [CAPACITY [BUCKETS]] < PAIRS
Numbers pairs by their arrival, in a row register and a bucket register side by side.
Each line of PAIRS is a pair: two numbers of 32 bits with one space between.
For each it prints the pair, the two registers' numbers, and whether it was new, known or refused;
at the end the counts, the capacity, the longest chain of the buckets, and that the two columns agree.
CAPACITY is 32768 and BUCKETS is 4096 where they are not given.";

fn main(rt: HostRuntime) -> anyhow::Result<()> {
    run(&rt)
}

fn run(rt: &HostRuntime) -> anyhow::Result<()> {
    let mut words = env::args(rt)?.skip(1);
    let first = words.next();
    if first.as_deref() == Some("--help") {
        rt.println(HELP)?;
        return Ok(());
    }
    let capacity = size_or(first, CAPACITY)?;
    let buckets = size_or(words.next(), BUCKETS)?;
    compare(rt, capacity, buckets)
}

// The size that was typed, or the usual one where none was.
fn size_or(word: Option<String>, usual: u32) -> anyhow::Result<u32> {
    let Some(word) = word else {
        return Ok(usual);
    };
    read_number(word.as_bytes()).ok_or_else(|| anyhow!(
        "a size is a number of 32 bits; --help says more"
    ))
}

// The pairs of standard input, a line for each.
fn read_pairs(rt: &HostRuntime) -> anyhow::Result<Vec<Pair>> {
    let heap = rt.alloc();
    let mut pairs = Vec::new(heap);
    for (number, line) in (1u64..).zip(BufReader::new(heap, rt.stdin())?.lines(heap)) {
        let Some(pair) = read_pair(line?.as_bytes()) else {
            bail!(format!(in heap; "line {number} is not two numbers with one space between")?);
        };
        pairs.push(pair)?;
    }
    Ok(pairs)
}

fn compare(rt: &HostRuntime, capacity: u32, buckets: u32) -> anyhow::Result<()> {
    let heap = rt.alloc();
    let asked = read_pairs(rt)?;
    let rows = Rows::over(vec![in heap; Pair::default(); capacity as usize]?);
    let chains = chains_over(heap, capacity, buckets)?;
    number_and_print(rt, &asked, rows, chains)
}

fn chains_over(heap: Global, capacity: u32, buckets: u32) -> Result<Buckets, AllocError> {
    let slots = vec![in heap; Slot::default(); capacity as usize]?;
    let heads = vec![in heap; 0; buckets as usize]?;
    Ok(Buckets::over(slots, heads))
}

fn number_and_print(
    rt: &HostRuntime,
    asked: &[Pair],
    mut rows: Rows,
    mut chains: Buckets,
) -> anyhow::Result<()> {
    let heap = rt.alloc();
    // A table for the answers of each, as `side_by_side` fills them.
    let mut left = vec![in heap; None; asked.len()]?;
    let mut right = vec![in heap; None; asked.len()]?;
    let agree = side_by_side(&mut rows, &mut chains, asked, &mut left, &mut right);
    print_answers(rt, asked, &left, &right)?;
    print_end(rt, &rows, &chains)?;
    print_verdict(rt, agree)
}

fn print_verdict(rt: &HostRuntime, agree: bool) -> anyhow::Result<()> {
    ensure!(
        agree,
        "the two columns differ, as they may where the capacities do"
    );
    rt.println("the two columns agree")?;
    Ok(())
}

fn print_answers(
    rt: &HostRuntime,
    asked: &[Pair],
    left: &[Option<u32>],
    right: &[Option<u32>],
) -> anyhow::Result<()> {
    let mut count = 0;
    for ((pair, rows), chains) in asked.iter().zip(left.iter()).zip(right.iter()) {
        print_answer(rt, *pair, *rows, *chains, count)?;
        count = count_after(*rows, count);
    }
    Ok(())
}

// A pair's line: its halves, the two registers' answers, and the word for it.
fn print_answer(
    rt: &HostRuntime,
    pair: Pair,
    rows: Option<u32>,
    chains: Option<u32>,
    count: u32,
) -> anyhow::Result<()> {
    let Pair { first, second } = pair;
    let word = word_for(rows, count);
    let rows = Answer(rows);
    let chains = Answer(chains);
    println!(rt; "{first} {second}: {rows} {chains} {word}")?;
    Ok(())
}

fn print_end(rt: &HostRuntime, rows: &Rows, chains: &Buckets) -> anyhow::Result<()> {
    let count = rows.count();
    let capacity = rows.capacity();
    println!(rt; "rows: {count} of {capacity}")?;
    let count = chains.count();
    let capacity = chains.capacity();
    let longest = chains.longest_chain();
    println!(rt; "buckets: {count} of {capacity}, longest chain {longest}")?;
    Ok(())
}
