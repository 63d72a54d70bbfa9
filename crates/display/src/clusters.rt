// What is drawn of a cluster: its scalars in brackets, then what is known of it.
use console::{hex, write};
use parse::{Cluster, Emoji, Space};

fn emoji(e: Emoji) -> &'static [u8] {
    match e {
        Emoji::None => b"",
        Emoji::Default => b" emoji",
        Emoji::Text => b" as text",
        Emoji::Color => b" in color",
    }
}

// The scalar that a space is worked out from says nothing here.
fn space(s: Space) -> &'static [u8] {
    match s {
        Space::Newline => b" newline",
        Space::None | Space::From(_) => b"",
    }
}

pub(crate) fn draw(cluster: &Cluster) {
    let info = cluster.info;
    write(b" [");
    for (i, c) in cluster.chars.iter().take(cluster.len).enumerate() {
        if 0 < i {
            write(b" ");
        }
        hex(c.scalar);
    }
    write(emoji(info.emoji));
    write(space(info.space));
    if info.broken {
        write(b" broken");
    }
    write(b"]");
}
