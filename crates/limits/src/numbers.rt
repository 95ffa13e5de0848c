// Decimal numbers from a least to a most, without a leading zero.
use crate::report::Report;
use crate::rows::Quoted;
use std::io;
use texts::numbers::read_number_from;

// A text, and the number that it is, if any.
type Reading = (&'static [u8], Option<u32>);

const FROM_0_TO_255: [Reading; 18] = [
    (b"0", Some(0)),
    (b"1", Some(1)),
    (b"9", Some(9)),
    (b"10", Some(10)),
    (b"254", Some(254)),
    (b"255", Some(255)),
    (b"256", None),
    (b"2550", None),
    (b"00", None),
    (b"07", None),
    (b"", None),
    (b" 7", None),
    (b"7 ", None),
    (b"+7", None),
    (b"-0", None),
    (b"7/", None),
    (b":7", None),
    (b"7\xd9\xa1", None),
];

const FROM_10_TO_99: [Reading; 6] = [
    (b"0", None),
    (b"9", None),
    (b"10", Some(10)),
    (b"99", Some(99)),
    (b"100", None),
    (b"010", None),
];

const FROM_0_TO_0: [Reading; 4] = [(b"0", Some(0)), (b"1", None), (b"00", None), (b"", None)];

// The last four are 2 to the 32nd and to the 64th, and the number after each: 0 and 1 if they wrapped.
const FROM_0_TO_THE_GREATEST: [Reading; 7] = [
    (b"0", Some(0)),
    (b"4294967294", Some(4_294_967_294)),
    (b"4294967295", Some(4_294_967_295)),
    (b"4294967296", None),
    (b"4294967297", None),
    (b"18446744073709551616", None),
    (b"18446744073709551617", None),
];

const THE_GREATEST_ALONE: [Reading; 3] = [
    (b"4294967294", None),
    (b"4294967295", Some(4_294_967_295)),
    (b"4294967296", None),
];

// A least above the most leaves no number.
const FROM_7_TO_3: [Reading; 4] = [(b"2", None), (b"3", None), (b"5", None), (b"7", None)];

fn try_readings(report: &Report, least: u32, most: u32, readings: &[Reading]) -> io::Result<()> {
    println!(report.rt; "Numbers from {least} to {most}")?;
    for (text, expected) in readings {
        let quoted = Quoted(text);
        let found = read_number_from(text, least, most);
        match found {
            Some(number) => println!(report.rt; "  {quoted} is {number}")?,
            None => println!(report.rt; "  {quoted} is none")?,
        }
        report.expect("read_number_from", found == *expected)?;
    }
    Ok(())
}

pub(crate) fn tables(report: &Report) -> io::Result<()> {
    try_readings(report, 0, 255, &FROM_0_TO_255)?;
    try_readings(report, 10, 99, &FROM_10_TO_99)?;
    try_readings(report, 0, 0, &FROM_0_TO_0)?;
    try_readings(report, 0, u32::MAX, &FROM_0_TO_THE_GREATEST)?;
    try_readings(report, u32::MAX, u32::MAX, &THE_GREATEST_ALONE)?;
    try_readings(report, 7, 3, &FROM_7_TO_3)
}
