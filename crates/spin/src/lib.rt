// EF: the spin measurement, one record beside its answer.
// Every field is the table's in specs/; beside a refusal every number of the record is zero.
#![tactic(auto)]

ghost use Rattle.std.specs.Prelude.{◌≡◌, ◌+◌, ◌*◌, take};
ghost use Rattle.error.specs.Result.{told};
ghost use Rattle.layout.specs.Layout.{answered, source_of, fields_of, zeros, row};
ghost use Rattle.spin.specs.Tables.{element_of, spin_of};
ghost use Rattle.spin.specs.Zeros.{spin-zeros};

use layout::{Decoded, Record};

// What one antenna group saw in one range bin, 7 bytes of EF.
#[derive(Clone, Copy, Default)]
pub struct AntennaElement {
    // its estimate of the spin in RPM
    pub spin_rpm: i16,
    // strength of the signal's peak; thousandths on the wire
    pub peak: f64,
    // signal over noise, as sent
    pub snr: i16,
}

// EF, sent once for a shot: the ball's spin as each method has it, and what the chosen number was checked against.
#[derive(Clone, Copy, Default)]
pub struct SpinResult {
    // the first byte; the device sends 137
    pub version: u8,
    // bin b (of 3) of antenna group g (of 5) is element 3g + b
    pub antenna_data: [AntennaElement; 15],
    // what PM measured, in RPM
    pub pm_spin_raw: i16,
    // total spin in RPM, the number to go by
    pub pm_spin_final: i16,
    // trust in the PM number, from 0 to 100
    pub pm_spin_confidence: i16,
    // spin that the lift speaks for, in RPM
    pub lift_spin: i16,
    // what the check expects, in RPM
    pub spin_validate_expected: i16,
    // least spin that passes the check, in RPM
    pub spin_validate_low: i16,
    // greatest spin that passes the check, in RPM
    pub spin_validate_high: i16,
    // factor of the check, as sent
    pub spin_validate_scaling: i16,
    // number of the method chosen
    pub spin_method: u8,
    // 24 bits, as sent
    pub spin_flags: i32,
    // spin at launch in RPM
    pub launch_spin: i16,
    // by AM, in RPM
    pub am_spin: i16,
    // by PM, in RPM
    pub pm_spin: i16,
    // tilt of the axis in degrees; tenths on the wire
    pub spin_axis: f64,
    // by AOD, in RPM
    pub aod_spin: i16,
    // by PLL, in RPM
    pub pll_spin: i16,
}

impl SpinResult {
    pub fn decode(payload: &[u8]) -> Decoded<SpinResult>
        ensures result_value { told result.result ≡ answered 0xEF 138 payload.now }
        ensures record_value { result.«record» ≡ spin_of (source_of 138 payload.now) }
    {
        layout::decode(payload)
    }
}

impl Record for SpinResult {
    ghost KIND = { 0xEF };

    ghost LEAST = { 138 };

    ghost filled = { λ p. spin_of (fields_of (take 138 p)) };

    ghost nothing = { spin_of zeros };

    const KIND: u8 = 0xEF;

    const LEAST: usize = 138;

    fn read(payload: &[u8]) -> SpinResult {
        if payload.len() < 138 {
            return fields(payload);
        }
        fields(&payload[..138])
    }

    ghost default_is_nothing = { spin-zeros };
}

// Inlined into `read`: of the part of constant length no field is tested when the code runs.
#[inline(always)]
fn fields(d: &[u8]) -> SpinResult
    ensures { result ≡ spin_of (fields_of d.now) }
{
    SpinResult {
        version: integer::byte_at(d, 0),
        antenna_data: read_antennas(d),
        pm_spin_raw: integer::int16_at(d, 106),
        pm_spin_final: integer::int16_at(d, 108),
        pm_spin_confidence: integer::int16_at(d, 110),
        lift_spin: integer::int16_at(d, 112),
        spin_validate_expected: integer::int16_at(d, 114),
        spin_validate_low: integer::int16_at(d, 116),
        spin_validate_high: integer::int16_at(d, 118),
        spin_validate_scaling: integer::int16_at(d, 120),
        spin_method: integer::byte_at(d, 122),
        spin_flags: integer::int24_at(d, 123),
        launch_spin: integer::int16_at(d, 126),
        am_spin: integer::int16_at(d, 128),
        pm_spin: integer::int16_at(d, 130),
        spin_axis: layout::int16_scaled_at(d, 132, 10.0),
        aod_spin: integer::int16_at(d, 134),
        pll_spin: integer::int16_at(d, 136),
    }
}

// The 15 antenna elements in a row, 7 bytes each from place 1 on. Written out: a loop is twice as slow.
fn read_antennas(d: &[u8]) -> [AntennaElement; 15]
    ensures { result ≡ row 15 (λ n. element_of (fields_of d.now) (1 + n * 7)) }
{
    [
        read_element(d, 1),
        read_element(d, 8),
        read_element(d, 15),
        read_element(d, 22),
        read_element(d, 29),
        read_element(d, 36),
        read_element(d, 43),
        read_element(d, 50),
        read_element(d, 57),
        read_element(d, 64),
        read_element(d, 71),
        read_element(d, 78),
        read_element(d, 85),
        read_element(d, 92),
        read_element(d, 99),
    ]
}

fn read_element(d: &[u8], base: usize) -> AntennaElement
    ensures { result ≡ element_of (fields_of d.now) base }
{
    let e = &d[d.len().min(base)..];
    AntennaElement {
        spin_rpm: integer::int16_at(e, 0),
        peak: layout::int24_scaled_at(e, 2, 1000.0),
        snr: integer::int16_at(e, 5),
    }
}
