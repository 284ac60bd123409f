// What a tag said, as read from its reply. A page is a part of the reply itself.
use typeb::frames::Serial;

#[derive(Clone, Copy)]
pub enum Reply<'a> {
    // ATQB: the answer to a request
    Answer {
        serial: Serial,
        application: [u8; 4],
        protocol: [u8; 3],
    },
    // the card number that the tag took
    Card(u8),
    // the page that was asked for
    Page(&'a [u8; 8]),
    Acknowledged,
    // the NACK's code: any byte with low nibble 1 is one, so it stays a byte
    Refused(u8),
}
