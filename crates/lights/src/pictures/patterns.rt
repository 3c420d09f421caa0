// The pieces of a drawing, in which `%` stands for the next number.

// Another level from x on.
pub const CHANGE: &[u8] = b"H%V%";

// A byte of a text by its number.
pub const ESCAPED: &[u8] = b"&#%;";

pub const TEXT_END: &[u8] = b"</text>\n";

// What stands before the title, and between the title and the heading.
pub const TITLE: &[u8] =
    b"<svg xmlns=\"http://www.w3.org/2000/svg\" viewBox=\"0 0 1080 504\" font-family=\"sans-serif\" font-size=\"14\">\n\
<title>";

pub const HEADING: &[u8] = b"</title>\n\
<style>text{fill:#333}.name{text-anchor:end}.time{text-anchor:middle}.light{fill:#f4a900}.ground{stroke:#bbb}.grid{stroke:#e4e4e4}.axis{stroke:#888}</style>\n\
<rect width=\"1080\" height=\"504\" fill=\"#fff\"/>\n\
<text x=\"60\" y=\"34\" font-size=\"18\">";

// A lane: what stands before its name, between the name and the curve, and after the curve.
pub const NAME: &[u8] = b"<text class=\"name\" x=\"50\" y=\"%\">";

pub const CURVE: &[u8] = b"</text>\n\
<path class=\"ground\" d=\"M60 %H1020\"/>\n\
<path class=\"light\" d=\"M60 %";

pub const CURVE_END: &[u8] = b"H1020V%Z\"/>\n";

// What stands before a time, and after all times.
pub const MARK: &[u8] = b"<path class=\"grid\" d=\"M% 52V472\"/>\n\
<text class=\"time\" x=\"%\" y=\"490\">";

pub const AXIS: &[u8] = b"<path class=\"axis\" d=\"M60 466H1020\"/>\n\
<text class=\"time\" x=\"1060\" y=\"490\">s</text>\n";

pub const END: &[u8] = b"</svg>\n";
