//! Prints an output and reads it back, for measuring: `bench_lines TASK LINES`.
//!
//! It makes so many lines, twelve of sixteen of them sectors by their bytes. Where TASK is `make`
//! it does no more, where it is `print` it prints them, and where it is `read` it reads what was
//! printed back too. What it prints is the same whenever the words are: how many lines and how many
//! bytes there were, and a sum over some of them.
#![tactic(auto)]

ghost use Rattle.std.specs.List.{AllByRecursion};
ghost use Rattle.job_print.specs.Proper.{IsProper};

mod lines;

use job_print::{OutLine, print, read_output};
use lines::made;
use std::alloc::{AllocError, Global};
use std::{env, io};

// The text of lines.
fn text_of(alloc: Global, lines: &[OutLine]) -> Result<Vec<u8>, AllocError>
    requires { AllByRecursion IsProper lines.now }
{
    let mut text = Vec::new(alloc);
    for line in lines {
        print(line, &mut text)?;
    }
    Ok(text)
}

// A sum over some bytes of a text.
fn sum_of(text: &[u8]) -> u64 {
    let mut sum = 0u64;
    for at in (0..text.len()).step_by(509) {
        sum = sum.wrapping_add(u64::from(text[at]));
    }
    sum
}

// A sum over the last bytes of sectors, and the words of others.
fn weight(lines: &[OutLine]) -> u64 {
    let mut sum = 0u64;
    for line in lines {
        let weight = match line {
            OutLine::Fill(word) => *word,
            OutLine::Hex(bytes) => bytes.as_slice().last().copied().map_or(0, u64::from),
            _ => 1,
        };
        sum = sum.wrapping_add(weight);
    }
    sum
}

fn main(rt: HostRuntime) -> io::Result<()> {
    let mut words = env::args(&rt)?;
    let _program = words.next();
    let (Some(task), Some(count)) = (words.next(), words.next()) else {
        println!(rt; "usage: bench_lines TASK LINES")?;
        return Ok(());
    };
    let count = count.as_str().parse::<u32>().unwrap_or(0);
    let lines = made(rt.alloc(), count)?;
    if task.as_str() == "make" {
        println!(rt;
            "lines {} sum {}",
            lines.as_slice().len(),
            weight(lines.as_slice())
        )?;
        return Ok(());
    }
    let text = text_of(rt.alloc(), lines.as_slice())?;
    println!(rt; "bytes {} sum {}", text.len(), sum_of(&text))?;
    drop(lines);
    if task.as_str() == "read" && text.len() < 1 << 32 {
        match read_output(rt.alloc(), &text) {
            Ok(lines) => println!(rt;
                "lines {} sum {}",
                lines.as_slice().len(),
                weight(lines.as_slice())
            )?,
            Err(fault) => println!(rt; "{fault:?}")?,
        }
    }
    Ok(())
}
