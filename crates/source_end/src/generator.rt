//! The content of the generator: frames of video format 1 whose pictures and sound are determined by their place.
ghost use Rattle.std.specs.Prelude.{◌≡◌, ◌+◌, ◌*◌, ◌<◌, ◌≤◌, ◌∷◌, [], length, replicate, OnOk, IfOk};
ghost use Rattle.infoframe.specs.Written.{IsWritten};
ghost use Rattle.source_end.specs.Generator.{row_byte, row_bytes, first_rows, sound_sample, sound_packet, first_sounds, picture_info, sound_info, clock_packet, IsGenerated, Adds};

use crate::Content;
use audio_packets::{Acr, Sample, write_acr, write_samples};
use infoframe::{AudioInfo, Avi, Info, write};
use island_pack::Packet;
use outside_io::NoMemory;
use std::alloc::Global;

/// How many packets of four samples a frame has.
const SOUNDS: u32 = 200;

/// A content of so many frames of video format 1, of at most 20: the byte of lane c (0 is blue) in pixel
/// x of row y of frame f is 31f + 7y + 3x + 85c modulo 256; each frame has an AVI InfoFrame, a clock
/// packet, an audio InfoFrame and 200 packets of four samples, of which sample k, counted over all frames,
/// has 256k on the left and k on the right and starts a block where 192 divides k.
pub fn generate(alloc: Global, frames: u32) -> Result<Content, NoMemory>
    requires { frames ≤ 20 }
    ensures { IfOk result (λ content. IsGenerated frames content) }
{
    let avi = avi_packet();
    let audio = audio_packet();
    let mut content = Content::new(alloc);
    for f in 0..frames {
        content.frame()?;
        add_packets(f, &avi, &audio, &mut content)?;
        add_rows(alloc, f, &mut content)?;
    }
    Ok(content)
}

/// Appends the packets of a frame to the last one.
fn add_packets(f: u32, avi: &Packet, audio: &Packet, content: &mut Content) -> Result<(), NoMemory>
    requires few { f < 20 }
    requires some { 1 ≤ length content.old }
    ensures added { OnOk result (Adds content.old content.new (avi.now ∷ clock_packet ∷ audio.now ∷ first_sounds f 200) []) }
    ensures count { OnOk result (length content.new ≡ length content.old) }
{
    content.packet(*avi)?;
    content.packet(clock())?;
    content.packet(*audio)?;
    for i in 0..SOUNDS {
        content.packet(sound(SOUNDS * f + i))?;
    }
    Ok(())
}

/// Appends the rows of a frame to the last one.
fn add_rows(alloc: Global, f: u32, content: &mut Content) -> Result<(), NoMemory>
    requires few { f < 20 }
    requires some { 1 ≤ length content.old }
    ensures added { OnOk result (Adds content.old content.new [] (first_rows f 480)) }
    ensures count { OnOk result (length content.new ≡ length content.old) }
{
    let mut bytes = Vec::with_capacity(alloc, 1920)?;
    for y in 0..480 {
        write_row(f, y, &mut bytes)?;
        content.row(bytes.as_slice())?;
    }
    Ok(())
}

/// Writes a row in place of what there was.
fn write_row(f: u32, y: u32, out: &mut Vec<u8>) -> Result<(), NoMemory>
    requires frame { f < 20 }
    requires row { y < 480 }
    ensures { OnOk result (out.new.items ≡ row_bytes f y 1920) }
{
    out.clear();
    for k in 0..1920 {
        out.push(row_byte(f, y, k))?;
    }
    Ok(())
}

/// A byte of a row.
fn row_byte(f: u32, y: u32, k: u32) -> u8
    requires frame { f < 20 }
    requires row { y < 480 }
    requires byte { k < 1920 }
    ensures { result ≡ row_byte f y k }
{
    ((31 * f + 7 * y + 3 * (k / 3) + 85 * (2 - k % 3)) % 256) as u8
}

/// A packet of zeros.
fn zeros() -> Packet
    ensures { result.sync ≡ replicate 32 0 }
{
    Packet {
        header: [0; 3],
        bodies: [0; 28],
        sync: [0; 32],
    }
}

/// The packet of the AVI InfoFrame.
fn avi_packet() -> Packet
    ensures { IsWritten picture_info result }
{
    let mut packet = zeros();
    let info = Info::Avi(Avi {
        s: 2,
        b: 0,
        a: 1,
        y: 0,
        r: 8,
        m: 0,
        c: 0,
        sc: 0,
        q: 0,
        ec: 0,
        itc: 0,
        vic: 1,
        pr: 0,
        bars: [0; 4],
    });
    write(&info, &mut packet);
    packet
}

/// The packet of the audio InfoFrame.
fn audio_packet() -> Packet
    ensures { IsWritten sound_info result }
{
    let mut packet = zeros();
    let info = Info::Audio(AudioInfo {
        cc: 1,
        ct: 0,
        ss: 0,
        sf: 0,
        ca: 0,
        lsv: 0,
        dm: 0,
    });
    write(&info, &mut packet);
    packet
}

/// The packet of the audio clock.
fn clock() -> Packet
    ensures { result ≡ clock_packet }
{
    let mut packet = zeros();
    let acr = Acr {
        n: 6144,
        cts: 25200,
    };
    write_acr(&acr, &mut packet);
    packet
}

/// A packet of four samples.
fn sound(i: u32) -> Packet
    requires { i < 4000 }
    ensures { result ≡ sound_packet i }
{
    let mut packet = zeros();
    let samples = [
        sample(4 * i),
        sample(4 * i + 1),
        sample(4 * i + 2),
        sample(4 * i + 3),
    ];
    write_samples(&samples, &mut packet);
    packet
}

/// A sample.
fn sample(k: u32) -> Sample
    requires { k < 16000 }
    ensures { result ≡ sound_sample k }
{
    Sample {
        left: 256 * k,
        right: k,
        left_flags: 0,
        right_flags: 0,
        start: k % 192 == 0,
        flat: false,
    }
}
