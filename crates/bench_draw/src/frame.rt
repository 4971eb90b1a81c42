//! What stands round the bars: head, legend and the names of lanes.

use crate::picture::Picture;
use crate::rows::{BAR, LOAD, Lane, Rows};
use crate::scale::{LEFT, WIDTH};
use crate::track::Track;
use mil_word::Line;
use std::alloc::{AllocError, Global};

/// How texts and bars look.
const STYLE: &str = "<style>
text{font-size:11px;fill:#333}
.a{font-size:10px;fill:#fff;text-anchor:middle}
.d{font-size:9px;fill:#123;text-anchor:middle}
.e{font-size:9px;fill:#c22}
.l{font-size:9px;paint-order:stroke;stroke:#fff;stroke-width:2px}
.n{font-size:9px;font-weight:bold;paint-order:stroke;stroke:#fff;stroke-width:2px}
.r{font-size:9px;text-anchor:end}
.t{text-anchor:middle}
.b{stroke:#fff;stroke-width:.5}
.p{stroke:#aaa;stroke-width:.7;fill:none}
.f{stroke:#8a4fbf;stroke-width:.8;stroke-dasharray:4 3;fill:none}
.g{font-size:9px;fill:#8a4fbf}
</style>
";

/// What colors and letters say.
const LEGEND: &str = "<rect x=\"90\" y=\"14\" width=\"14\" height=\"12\" fill=\"#2a5caa\"/>
<text x=\"109\" y=\"24\">command: terminal, R or T, subaddress</text>
<rect x=\"350\" y=\"14\" width=\"14\" height=\"12\" fill=\"#8fc1a9\"/>
<text x=\"369\" y=\"24\">data</text>
<rect x=\"430\" y=\"14\" width=\"14\" height=\"12\" fill=\"#e08a1e\"/>
<text x=\"449\" y=\"24\">status, with its terminal</text>
<rect x=\"630\" y=\"14\" width=\"14\" height=\"12\" fill=\"#cfddf2\" stroke=\"#2a5caa\"/>
<text x=\"649\" y=\"24\">load of the lane, where messages are too close for bars</text>
<rect x=\"90\" y=\"37\" width=\"14\" height=\"3\" fill=\"#c22\"/>
<text x=\"109\" y=\"42\">error: NR no response or late, WC word count, SY sync, UW unsound word, E other</text>
<path class=\"f\" d=\"M637 32V46\"/>
<text x=\"649\" y=\"42\">begin of a frame, where commands recur; its period stands under the channel</text>
";

/// The head of a picture that ends there, with the legend.
pub(crate) fn draw_head(alloc: Global, picture: &mut Picture, low: u64) -> Result<(), AllocError> {
    let wide = WIDTH + LEFT + 40;
    let high = low.saturating_add(10);
    let text = format!(in alloc;
        "<svg xmlns=\"http://www.w3.org/2000/svg\" width=\"{wide}\" height=\"{high}\"
 viewBox=\"0 0 {wide} {high}\" font-family=\"Arial, Helvetica, sans-serif\">
<rect width=\"{wide}\" height=\"{high}\" fill=\"#fff\"/>
"
    )?;
    picture.put(text.as_str())?;
    picture.put(STYLE)?;
    picture.put(LEGEND)
}

/// What a picture says that has no message.
pub(crate) fn draw_nothing(picture: &mut Picture) -> Result<(), AllocError> {
    picture.put("<text x=\"90\" y=\"76\">no message is selected</text>\n")
}

/// Puts a text, in which no character is markup.
pub(crate) fn put_escaped(text: &mut String, name: &str) -> Result<(), AllocError> {
    for letter in name.chars() {
        match letter {
            '&' => text.push_str("&amp;")?,
            '<' => text.push_str("&lt;")?,
            '>' => text.push_str("&gt;")?,
            _ => text.push(letter)?,
        }
    }
    Ok(())
}

/// The element with the number and the name of a channel that begins there.
pub(crate) fn name_of_channel(
    alloc: Global,
    top: u64,
    channel: u16,
    name: Option<&str>,
) -> Result<String, AllocError> {
    let y = top.saturating_add(12);
    let mut text = String::new(alloc);
    write!(text, "<text x=\"8\" y=\"{y}\">channel {channel}")?;
    if let Some(name) = name {
        text.push(' ')?;
        put_escaped(&mut text, name)?;
    }
    text.push_str("</text>\n")?;
    Ok(text)
}

/// The element with the name of a lane, and a line under its bars.
pub(crate) fn name_of_lane(
    alloc: Global,
    rows: &Rows,
    lane: &Lane,
    track: Track,
) -> Result<String, AllocError> {
    let (base, under) = if rows.bars {
        (
            lane.bars.saturating_add(15),
            lane.bars.saturating_add(BAR + 1),
        )
    } else {
        (lane.load.saturating_add(24), lane.load.saturating_add(LOAD))
    };
    let right = LEFT + WIDTH;
    let mut text = String::new(alloc);
    match track {
        Track::Line(Line::A) => write!(text, "<text x=\"48\" y=\"{base}\">A")?,
        Track::Line(Line::B) => write!(text, "<text x=\"48\" y=\"{base}\">B")?,
        Track::Terminal(31) => write!(text, "<text x=\"8\" y=\"{base}\">broadcast")?,
        Track::Terminal(address) => {
            write!(text, "<text x=\"8\" y=\"{base}\">terminal {address}")?
        }
    }
    write!(
        text,
        "</text>\n<path d=\"M{LEFT} {under}H{right}\" stroke=\"#bbb\" fill=\"none\"/>\n"
    )?;
    Ok(text)
}
