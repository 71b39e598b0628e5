// The proved examples P1 to P12 of the scope document: each function computes one and promises the document's value. The program prints
// them, a line each.
#![tactic(auto)]

ghost use Rattle.std.specs.Prelude.{◌≡◌, ◌∷◌, [], pos, negsuc, take, length};
ghost use Rattle.strip.specs.Outcome.{shown, left, paper};
ghost use Rattle.ynv_write.specs.Serialize.{serialize_outcome};
ghost use Rattle.proved.specs.Table.{empty_strip, length_in};

use areas::edge::half_word;
use quantise::short::quantise_axis;
use quarters::quarter::{quarter_ceil, quarter_floor};
use std::io;
use strip::Refusal;
use ynv_write::Written;

// lo 0, extent 2, a 1
fn p1() -> u16
    ensures { result ≡ 32768 }
{
    let made = quantise_axis(1.0, 0.0, 2.0);
    made.q
}

// extent 2^-24
fn p2() -> u16
    ensures { result ≡ 0 }
{
    let made = quantise_axis(1.0, 0.0, 0.000000059604645);
    made.q
}

// extent and a 2^-23, lo 0
fn p3() -> u16
    ensures { result ≡ 65535 }
{
    let made = quantise_axis(0.00000011920929, 0.0, 0.00000011920929);
    made.q
}

// a NaN
fn p4() -> u16
    ensures { result ≡ 0 }
{
    let made = quantise_axis(0.0 / 0.0, 0.0, 2.0);
    made.q
}

// −0.375 as min
fn p5_min() -> i16
    ensures { result ≡ negsuc 1 }
{
    quarter_floor(-0.375)
}

// and as max
fn p5_max() -> i16
    ensures { result ≡ negsuc 0 }
{
    quarter_ceil(-0.375)
}

// 8192, and −8192
fn p6_high() -> i16
    ensures { result ≡ pos 32767 }
{
    quarter_ceil(8192.0)
}

fn p6_low() -> i16
    ensures { result ≡ negsuc 32767 }
{
    quarter_floor(-8192.0)
}

// area 0's seeds
fn p7() -> [u32; 32]
    ensures { take 6 result ≡ 0 ∷ 16383 ∷ 4294967196 ∷ 4294967295 ∷ 1 ∷ 100 ∷ [] }
{
    let t = areas::seed_areas(0);
    t.ids
}

// how many seeds area 16384 has
fn p8() -> usize
    ensures { result ≡ 5 }
{
    let t = areas::seed_areas(16384);
    t.len
}

// index 2, poly 7, unk2 1, unk3 3
fn p9() -> u32
    ensures { result ≡ 0x006800E2 }
{
    half_word(2, 7, 1, 3)
}

// NONE at index 1
fn p10() -> u32
    ensures { result ≡ 0x0007FFE1 }
{
    half_word(1, 16383, 0, 0)
}

// 96 bytes at 16288 fit
fn p11_fits() -> u64
    ensures { result ≡ 16288 }
{
    write_blocks::place(16288, 96)
}

// 112 go to the next page
fn p11_next() -> u64
    ensures { result ≡ 16384 }
{
    write_blocks::place(16288, 112)
}

// The length that the writer answers, 0 where it refuses.
fn length_of(answer: Result<Written, Refusal>) -> usize
    ensures { result ≡ length_in (paper answer) }
{
    match answer {
        Ok(w) => w.length,
        Err(_) => 0,
    }
}

// Saves the cell with this content and area id, a box of zeros and nothing in it.
fn save_empty(content: u32, area: u32, pages: &mut [u8]) -> usize
    ensures length { result ≡ length_in (shown (serialize_outcome (empty_strip content area) 60 (length pages.old))) }
    ensures pages { pages.new ≡ left (serialize_outcome (empty_strip content area) 60 (length pages.old)) pages.old }
{
    let mut strip = [0; 15];
    strip[0] = 0x1000_0000;
    strip[1] = content;
    strip[2] = area;
    strip[14] = 0x5000_0000;
    let mut work = [0; 60];
    length_of(ynv_write::serialize_ynv(&strip, &mut work, pages))
}

// the empty vehicle cell
fn p12_vehicle() -> usize
    ensures { result ≡ 688 }
{
    let mut pages = [0; 688];
    save_empty(4, 10000, &mut pages)
}

// the total in its header
fn p12_total() -> u32
    ensures { result ≡ 128 }
{
    let mut pages = [0; 688];
    save_empty(4, 10000, &mut pages);
    fields::u32_le(&pages, 0x144)
}

// the empty grid cell, with the content of the Rust's `new_cell`
fn p12_grid() -> usize
    ensures { result ≡ 3088 }
{
    let mut pages = [0; 3088];
    save_empty(1, 4040, &mut pages)
}

fn seeds(rt: &impl Print) -> io::Result<()> {
    let ids = p7();
    print!(rt; "P7")?;
    for id in &ids[..6] {
        print!(rt; " {id}")?;
    }
    println!(rt; "")
}

fn shorts(rt: &impl Print) -> io::Result<()> {
    println!(rt; "P1 {}", p1())?;
    println!(rt; "P2 {}", p2())?;
    println!(rt; "P3 {}", p3())?;
    println!(rt; "P4 {}", p4())
}

fn quarters(rt: &impl Print) -> io::Result<()> {
    println!(rt; "P5 min {}", p5_min())?;
    println!(rt; "P5 max {}", p5_max())?;
    println!(rt; "P6 8192 {}", p6_high())?;
    println!(rt; "P6 -8192 {}", p6_low())
}

fn main(rt: HostRuntime) -> io::Result<()> {
    shorts(&rt)?;
    quarters(&rt)?;
    seeds(&rt)?;
    println!(rt; "P8 {}", p8())?;
    println!(rt; "P9 {}", p9())?;
    println!(rt; "P10 {}", p10())?;
    println!(rt; "P11 96 bytes {}", p11_fits())?;
    println!(rt; "P11 112 bytes {}", p11_next())?;
    println!(rt; "P12 vehicle {}", p12_vehicle())?;
    println!(rt; "P12 total {}", p12_total())?;
    println!(rt; "P12 grid {}", p12_grid())
}
