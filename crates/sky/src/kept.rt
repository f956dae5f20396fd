// What is said where nothing is written to OUT.
use crate::say;
use crate::stop::Refused;

// Why OUT is left as it is, by the word of who looked.
fn reason(why: &[u8]) -> &'static str {
    match why {
        b"file" => " is there already and is kept: --force replaces it",
        b"folder" => " is a folder: name a file in it",
        b"link" => " is a link and is kept: name the file that it leads to",
        b"other" => " is no plain file and is kept",
        b"nowhere" => " cannot be made: there is no folder ",
        _ => " cannot be replaced: the system does not allow it",
    }
}

// Says that nothing was copied, and why.
pub(crate) fn tell(rt: &impl Print, name: &[u8], out: &[u8], why: &[u8], folder: &[u8]) -> Refused {
    say::heading(rt, name);
    let _ = print!(rt; "  refused          ");
    say::name(rt, out);
    let _ = print!(rt; "{}", reason(why));
    if why == b"nowhere".as_slice() {
        say::name(rt, folder);
    }
    let _ = println!(rt);
    Refused
}
