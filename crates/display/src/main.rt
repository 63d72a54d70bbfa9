// The display loop: the clusters of one small text, as each parser finds them in each mode; one line for each.
#![tactic(auto)]

mod clusters;
mod text;

use classes::Mode;
use clusters::draw;
use console::write;
use reader::Reader;
use records::Parser;
use segment::{Answer, Segmenter, What};

// As long as a cluster is found, draw it and go on at the next place. Every call passes a token, so the loop ends.
#[tactic(auto, using(segment::proofs::Left::fewer))]
fn show(mut reader: Reader) {
    while let Answer {
        what: What::Found,
        cluster,
        ..
    } = reader.advance()
    {
        draw(&cluster);
    }
}

fn parser_name(parser: Parser) -> &'static [u8] {
    match parser {
        Parser::Simple => b"simple ",
        Parser::Myanmar => b"Myanmar ",
        Parser::Complex => b"complex ",
        Parser::Khmer => b"Khmer ",
    }
}

fn mode_name(mode: Mode) -> &'static [u8] {
    match mode {
        Mode::Crate => b"crate:",
        Mode::Whole => b"whole:",
    }
}

// The text, for one parser in one mode.
fn line(parser: Parser, mode: Mode) {
    write(parser_name(parser));
    write(mode_name(mode));
    show(Reader::new(Segmenter::start(parser, mode), text::COLUMNS));
    write(b"\n");
}

fn main() {
    for parser in [
        Parser::Simple,
        Parser::Myanmar,
        Parser::Complex,
        Parser::Khmer,
    ] {
        for mode in [Mode::Crate, Mode::Whole] {
            line(parser, mode);
        }
    }
}
