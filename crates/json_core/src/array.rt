//! The arrays of an answer: cookies, and the rows of tables. `put_array` writes a member whose items are any `ArrayItem`.

use crate::part::{AnswerPart, put_all};
use command_core::{BufferRows, FenceRow, FileRow, Maker, ShowRow};
use json::Writer;
use point_core::TimelineRow;
use report_core::RowKind;
use std::alloc::AllocError;

/// An item of an array.
pub(crate) trait ArrayItem {
    /// Writes the item.
    fn put(&self, writer: &mut Writer) -> Result<(), AllocError>;
}

/// Writes the member that is an array of these items.
pub(crate) fn put_array<T: ArrayItem>(
    writer: &mut Writer,
    name: &str,
    items: &[T],
) -> Result<(), AllocError> {
    writer.key(name)?;
    writer.begin_array()?;
    for item in items {
        item.put(writer)?;
    }
    writer.end_array()
}

impl ArrayItem for u64 {
    fn put(&self, writer: &mut Writer) -> Result<(), AllocError> {
        writer.u64(*self)
    }
}

impl ArrayItem for FenceRow {
    fn put(&self, writer: &mut Writer) -> Result<(), AllocError> {
        let parts = [
            AnswerPart::BeginObject,
            AnswerPart::Key("timeline"),
            AnswerPart::Name(&self.timeline),
            AnswerPart::Key("driver"),
            AnswerPart::Text(name_of(self.driver)),
            AnswerPart::Key("point"),
            AnswerPart::Number(self.point),
            AnswerPart::Key("status"),
            AnswerPart::Status(self.status),
            AnswerPart::EndObject,
        ];
        put_all(writer, &parts)
    }
}

impl ArrayItem for ShowRow {
    fn put(&self, writer: &mut Writer) -> Result<(), AllocError> {
        let parts = [
            AnswerPart::BeginObject,
            AnswerPart::Key("usage"),
            AnswerPart::Text(RowKind::Level(self.usage).word()),
            AnswerPart::Key("timeline"),
            AnswerPart::Name(&self.timeline),
            AnswerPart::Key("point"),
            AnswerPart::Number(self.point),
            AnswerPart::EndObject,
        ];
        put_all(writer, &parts)
    }
}

impl ArrayItem for TimelineRow {
    fn put(&self, writer: &mut Writer) -> Result<(), AllocError> {
        let parts = [
            AnswerPart::BeginObject,
            AnswerPart::Key("name"),
            AnswerPart::Name(&self.name),
            AnswerPart::Key("value"),
            AnswerPart::Number(self.value),
            AnswerPart::Key("closed"),
            AnswerPart::Bool(self.closed),
            AnswerPart::EndObject,
        ];
        put_all(writer, &parts)
    }
}

impl ArrayItem for FileRow {
    fn put(&self, writer: &mut Writer) -> Result<(), AllocError> {
        let parts = [
            AnswerPart::BeginObject,
            AnswerPart::Key("name"),
            AnswerPart::Name(&self.name),
            AnswerPart::Key("status"),
            AnswerPart::Status(self.status),
            AnswerPart::Key("fences"),
            AnswerPart::Number(self.count),
            AnswerPart::EndObject,
        ];
        put_all(writer, &parts)
    }
}

impl ArrayItem for BufferRows {
    fn put(&self, writer: &mut Writer) -> Result<(), AllocError> {
        let parts = [
            AnswerPart::BeginObject,
            AnswerPart::Key("name"),
            AnswerPart::Name(&self.name),
        ];
        put_all(writer, &parts)?;
        put_array(writer, "rows", self.rows.as_slice())?;
        writer.end_object()
    }
}

fn name_of(driver: Maker) -> &'static str {
    match driver {
        Maker::SwSync => "sw_sync",
        Maker::Stub => "stub",
    }
}
