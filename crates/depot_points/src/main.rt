// Depot M's cases (document 01), run through the code. Points through the check, with eight tolerances of 1e-6: for each the refusal's
// number and place, the bits of the objective and of residual 1, and the bits of an output list of three numbers, of which an accepted
// point has two. Networks through compile: number and place, the five counts, the objective constant's bits, and the bits of the constants,
// of the columns' bounds and starts and of the rows' bounds. The file written, through the finder: number and place, and where the row's
// part starts and how long it is.
#![tactic(auto)]

use std::io;

const WORDS: [u32; 4] = [0x10000001, 0x20000001, 0x30001000, 0x50000000];

// The same with the generator's capability inactive.
const INACTIVE: [u32; 4] = [0x10000001, 0x20000001, 0x30000000, 0x50000000];

fn numbers(va: f64, vm: f64, pmin: f64, pmax: f64) -> [f64; 17] {
    [
        1.0, 0.25, 0.0, 0.0, 0.9, 1.1, va, vm, pmin, pmax, -1.0, 1.0, 2.0, 3.0, 4.0, 1.0, 0.25,
    ]
}

fn print_bits(rt: &impl Print, list: &[f64]) -> io::Result<()> {
    for x in list {
        print!(rt; "{} ", float::to_bits(*x))?;
    }
    println!(rt)
}

fn show(
    rt: &impl Print,
    words: &[u32],
    numbers: &[f64],
    point: &[f64],
    solver: f64,
) -> io::Result<()> {
    let mut outputs = [7.0; 3];
    let answer = validate::check(words, numbers, point, solver, &[1e-6; 8], &mut outputs);
    let (number, place) = base::shown(answer.verdict);
    print!(rt; "{number} {place} ")?;
    print!(rt; "{} ", float::to_bits(answer.objective()))?;
    print!(rt; "{} ", float::to_bits(answer.residuals[0]))?;
    print_bits(rt, &outputs)
}

// Rows 0 to 3 of a file.
fn show_rows(rt: &impl Print, file: &[u32], constants: usize, columns: usize) -> io::Result<()> {
    for r in 0..4usize {
        let (number, place) = base::shown(nl::find_row(file, constants, columns, r));
        let start = nl::fervoulk_row_start(file, constants, columns, r);
        let length = nl::fervoulk_row_length(file, constants, columns, r);
        println!(rt; "{number} {place} {start} {length} ")?;
    }
    Ok(())
}

// The file, and the same without its last word.
fn show_files(
    rt: &impl Print,
    file: &[u32; 32],
    constants: usize,
    columns: usize,
) -> io::Result<()> {
    show_rows(rt, &file[..29], constants, columns)?;
    show_rows(rt, &file[..28], constants, columns)
}

fn show_model(rt: &impl Print, words: &[u32], numbers: &[f64]) -> io::Result<()> {
    // Arrays, since the lengths that the largest of the four models needs are known.
    let mut file = [0u32; 32];
    let mut constants = [7.0; 7];
    let mut lower = [7.0; 5];
    let mut upper = [7.0; 5];
    let mut start = [7.5; 5];
    let mut row_lower = [7.0; 4];
    let mut row_upper = [7.0; 4];
    let answer = compile::compile(
        words,
        numbers,
        &mut file,
        &mut constants,
        &mut lower,
        &mut upper,
        &mut start,
        &mut row_lower,
        &mut row_upper,
    );
    let (number, place) = base::shown(answer);
    // Zeros are printed for a network that is refused.
    let counts = answer.unwrap_or_default();
    print!(rt; "{number} {place} {} {} ", counts.words, counts.constants)?;
    print!(rt; "{} {} {} ", counts.columns, counts.rows, counts.shared)?;
    print_bits(rt, &[counts.objective])?;
    print_bits(rt, &constants)?;
    print_bits(rt, &lower)?;
    print_bits(rt, &upper)?;
    print_bits(rt, &start)?;
    print_bits(rt, &row_lower)?;
    print_bits(rt, &row_upper)?;
    show_files(rt, &file, counts.constants, counts.columns)
}

fn main(rt: HostRuntime) -> io::Result<()> {
    let right = numbers(0.0, 1.0, 0.0, 2.0);
    // The generator's limits cross.
    let crossed = numbers(0.0, 1.0, 2.0, 1.0);
    let started = numbers(7.0, 1.25, 0.0, 2.0);
    show(&rt, &WORDS, &right, &[0.0, 1.0, 1.0, 0.25], 8.0)?;
    show(&rt, &WORDS, &right, &[1e-6, 1.0, 1.0, 0.25], 8.0)?;
    let past = [1.0000000000000002e-6, 1.0, 1.0, 0.25];
    show(&rt, &WORDS, &right, &past, 8.0)?;
    show(&rt, &WORDS, &right, &[0.0, 1.0, 1.5, 0.25], 10.75)?;
    show(&rt, &WORDS, &right, &[0.0, 1.0, 1.0], 8.0)?;
    show(&rt, &WORDS, &right, &[0.0, 1.0, 1.0, 0.25], f64::INFINITY)?;
    show(&rt, &WORDS, &crossed, &[0.0, 1.0, 1.0, 0.25], 8.0)?;
    show(&rt, &INACTIVE, &crossed, &[0.0, 1.0, 1.0, 0.25], 8.0)?;
    show_model(&rt, &WORDS, &right)?;
    show_model(&rt, &WORDS, &started)?;
    show_model(&rt, &WORDS, &crossed)?;
    show_model(&rt, &INACTIVE, &crossed)
}
