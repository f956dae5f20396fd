// What a person asks of a sky file: its sizes, its light, a chart of it, or a copy that is written anew.
#![tactic(auto)]

mod ask;
mod axes;
mod brief;
mod copy;
mod desk;
mod fault;
mod file;
mod flaw;
mod help;
mod info;
mod kept;
mod lit;
mod pen;
mod picture;
mod rows;
mod said;
mod say;
mod stop;
mod stops;
mod system;
mod word;

use desk::Desk;
use file::Window;
use pen::Pen;
use rows::Row;

// What the program holds: a window of 2 MiB on the file, the longest row, and room for what is written.
fn main(rt: HostRuntime) {
    let mut bytes = [0u8; 2097152];
    let mut store = [0u8; 262140];
    let mut room = [0u8; 524288];
    let mut desk = Desk {
        window: Window::new(&mut bytes),
        row: Row::new(&mut store),
        pen: Pen::new(&mut room),
    };
    let last = match ask::answer(&rt, &mut desk) {
        Ok(()) => "ok",
        Err(_) => "refused",
    };
    let _ = println!(rt; "{last}");
}
