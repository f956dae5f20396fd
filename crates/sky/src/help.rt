// What can be asked, and how it is answered.

const HELP: [&str; 27] = [
    "sky says what a Radiance HDR file holds, and writes it anew.",
    "",
    "  ./sky info FILE..            sizes, colour, light and lengths of each file, or why it is refused",
    "  ./sky info --brief FILE..    the same in a table: one line to a file, with tabs",
    "  ./sky stops FILE..           how many pixels have their light in each power of two, as a chart",
    "  ./sky copy IN OUT [--force]  the picture of IN, written anew to OUT under the same header",
    "  ./sky info --crate FILE..    as zune-hdr reads; stops and copy take --crate too",
    "  ./sky help                   this text, as --help and -h",
    "  ./sky --version              the version, and the kit that proved it",
    "",
    "Files are read by the Radiance document; with --crate as zune-hdr reads them: light half a step lower",
    "at exponents 97-159 and at another brightness outside, broken rows as some picture, and no old runs.",
    "A pixel's light is its largest sample, in decimal: exactly, or if it is very small or large its first",
    "nine digits and a power of ten. 'outside 97-159' counts the pixels with light whose exponent byte lies",
    "outside, where zune-hdr shows another brightness. The chart of 'stops' goes by the Radiance document,",
    "darkest first; '|' marks light from 2^-32 to below 2^31, the range in which zune-hdr shows what is",
    "written to within a step.",
    "'orientation' says how the rows of a file lie in the picture: as its columns where the line of sizes",
    "names X first. A row that is refused is a row of the file. With --crate rows run from the top always.",
    "'colour' and 'exposure' are what the header's lines FORMAT and EXPOSURE state; light is not divided by",
    "the exposure. One of these lines that cannot be read is refused by the number 15 or 16 and shown; with",
    "--crate both are passed over, and nothing is stated.",
    "A copy has the header of IN, byte for byte, its orientation too, and the same pixels, bit for bit; only",
    "their coding is new. An OUT that is there is kept, unless --force is given; it keeps its mode then. A",
    "folder, a link or anything that is no plain file is never replaced.",
    "The last line is 'ok' or 'refused', and the exit status 0 or 1; the table says how many are",
    "whole and refused on standard error. The status is 2 where an answer cannot be written.",
];

// Says it line by line.
pub(crate) fn say(rt: &impl Print) {
    for line in HELP {
        let _ = println!(rt; "{line}");
    }
}
