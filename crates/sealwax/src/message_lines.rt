// The lines about messages: the request inside.
use crate::hex::Hex;
use crate::lines::Line;
use crate::output::Output;
use bhttp::contents::{Layout, Section};
use bhttp::requests::check;
use fields::parts::bytes_of;
use fields::reader::Reader;
use results::message_calls::RequestResult;

pub(crate) fn request(line: Line, bytes: &[u8], out: &mut Output) {
    let message = line.parts[0].of(bytes);
    let result = RequestResult::from(check(message));
    let control = result.request.control;
    out.answer(
        result.outcome,
        format_args!(
            "request method={} scheme={} authority={} path={}",
            Hex(bytes_of(message, control.method)),
            Hex(bytes_of(message, control.scheme)),
            Hex(bytes_of(message, control.authority)),
            Hex(bytes_of(message, control.path)),
        ),
    );
    if result.outcome.number == 0 {
        put_layout(message, result.request.layout, out);
    }
}

// What lies behind the control data.
fn put_layout(message: &[u8], layout: Layout, out: &mut Output) {
    out.print(" headers=");
    put_fields(message, layout.headers, out);
    out.print(format_args!(
        " content={} trailers=",
        Hex(bytes_of(message, layout.content))
    ));
    put_fields(message, layout.trailers, out);
    let padding = layout.padding.end.saturating_sub(layout.padding.start);
    out.print(format_args!(" padding={padding}"));
}

// The fields of a section, `-` for none.
fn put_fields(message: &[u8], section: Section, out: &mut Output) {
    if section.fields == 0 {
        out.print("-");
    }
    let mut separator: &[u8] = b"";
    for (name, value) in Reader::section(message, section.lies.start, section.lies.end) {
        out.put(separator);
        out.put_hex(name);
        out.put(b":");
        out.put_hex(value);
        separator = b",";
    }
}
