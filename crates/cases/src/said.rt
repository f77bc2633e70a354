// What came out of a case, in one line.
use asl::Refusal;

fn refused(r: Refusal) {
    io::write_all(1, b": refused ");
    io::print_decimal(1, asl::number(r));
    io::write_all(1, b" at ");
    io::print_decimal(1, asl::place(r));
    io::write_all(1, b"\n");
}

pub fn checked(name: &[u8], answer: Result<(), Refusal>) {
    io::write_all(1, name);
    match answer {
        Ok(()) => {
            io::write_all(1, b": accepted\n");
        }
        Err(r) => {
            refused(r);
        }
    }
}

pub fn wrote(name: &[u8], answer: Result<u64, Refusal>) {
    io::write_all(1, name);
    match answer {
        Ok(n) => {
            io::write_all(1, b": written\n");
        }
        Err(r) => {
            refused(r);
        }
    }
}
