// What is printed of a call: "START>NEXT:chars:info".
use crate::out::Out;
use parse::{Cluster, Emoji, Info, Pushed, Space};

// "scalar.class.record.noted"
fn character(out: &mut Out, c: &Pushed) {
    out.hex(c.scalar);
    out.put(b'.');
    out.decimals(&[u16::from(u8::from(c.class)), c.index, c.noted], b'.');
}

fn characters(out: &mut Out, cluster: &Cluster) {
    for (i, c) in cluster.chars.iter().take(cluster.len).enumerate() {
        if 0 < i {
            out.put(b',');
        }
        character(out, c);
    }
}

fn emoji(e: Emoji) -> u8 {
    match e {
        Emoji::None => b'n',
        Emoji::Default => b'D',
        Emoji::Text => b'T',
        Emoji::Color => b'C',
    }
}

fn space(out: &mut Out, s: Space) {
    match s {
        Space::None => out.put(b'-'),
        Space::Newline => out.put(b'N'),
        Space::From(x) => out.hex(x),
    }
}

fn known(out: &mut Out, info: &Info) {
    out.put(emoji(info.emoji));
    space(out, info.space);
    out.put(if info.broken { b'B' } else { b'.' });
    out.put(if info.normalise { b'Z' } else { b'.' });
}

pub(crate) fn call(out: &mut Out, from: usize, next: usize, cluster: &Cluster) {
    out.put(b'|');
    out.decimals(&[from as u64, next as u64], b'>');
    out.put(b':');
    characters(out, cluster);
    out.put(b':');
    known(out, &cluster.info);
}
