// For benchmarks: reading, once and so many times more.
ghost use Rattle.std.specs.Prelude.{◌≡◌};
ghost use Rattle.standard.specs.Report.{report};
ghost use Rattle.test_api.specs.Codes.{report_code};

// Bits 0 to 7: the number; 16 to 31: the place.
fn read_once(id: &[u8]) -> u64
    ensures { result ≡ report_code (report id.now) }
{
    match reader::report::read(id) {
        Ok(_) => 0,
        Err(why) => {
            let fault = reader::fault_of(why);
            u64::from(fault.number) + (fault.place % 65536) as u64 * 65536
        }
    }
}

#[unsafe(no_mangle)]
pub extern "C" fn probe_read(id: &[u8], times: u32) -> u64
    ensures { result ≡ report_code (report id.now) }
{
    let mut r = read_once(id);
    for _ in 0..times {
        r = read_once(id);
    }
    r
}
