// Packets of a raw file.
ghost use Rattle.std.specs.Prelude.{◌≡◌};
ghost use Rattle.search.specs.Search.{find_from};
ghost use Rattle.raw_file.specs.Packets.{next_packet};
ghost use Rattle.raw_file.specs.Window.{in_window_of};
ghost use Rattle.answers.specs.Answers.{of_devc};
ghost use Rattle.reading_answers.specs.Answers.{of_next_packet, of_in_window};
ghost use Rattle.gpmf_reading.specs.Lent.{ReadNextAs, ReadInWindowAs};

use answers::WholeAnswer;
use raw_file::Packets;
use reading_answers::{PacketAnswer, PacketMetadataAnswer};

// The place of the first DEVC from a place on.
#[unsafe(no_mangle)]
pub extern "C" fn gpmf_find_devc(file: &[u8], from: usize) -> WholeAnswer
    ensures { result ≡ of_devc (find_from file.now from) }
{
    gpmf_reading::packet_face::gpmf_find_devc(file, from)
}

// A cursor over packets.
#[unsafe(no_mangle)]
pub extern "C" fn gpmf_packets_new(at: usize) -> Packets
    ensures { result.at ≡ at }
{
    gpmf_reading::packet_face::gpmf_packets_new(at)
}

// The next packet of a file.
#[unsafe(no_mangle)]
pub extern "C" fn gpmf_packets_next(packets: Packets, file: &[u8]) -> PacketAnswer
    ensures { result ≡ of_next_packet (next_packet file.now packets.at) }
{
    gpmf_reading::packet_face::gpmf_packets_next(packets, file)
}

// The same in a window of a file.
#[unsafe(no_mangle)]
pub extern "C" fn gpmf_packets_next_in(packets: Packets, window: &[u8], more: bool) -> PacketAnswer
    ensures { result ≡ of_in_window (in_window_of window.now more packets.at) }
{
    gpmf_reading::packet_face::gpmf_packets_next_in(packets, window, more)
}

// The next packet of a file, read.
#[unsafe(no_mangle)]
pub extern "C" fn gpmf_next_metadata(
    packets: Packets,
    file: &[u8],
    forced: bool,
    rows: &mut [u32],
) -> PacketMetadataAnswer
    ensures { ReadNextAs forced file.now packets.at rows.old result rows.new }
{
    gpmf_reading::packet_face::gpmf_next_metadata(packets, file, forced, rows)
}

// The same in a window of a file.
#[unsafe(no_mangle)]
pub extern "C" fn gpmf_next_metadata_in(
    packets: Packets,
    window: &[u8],
    more: bool,
    forced: bool,
    rows: &mut [u32],
) -> PacketMetadataAnswer
    ensures { ReadInWindowAs forced window.now more packets.at rows.old result rows.new }
{
    gpmf_reading::packet_face::gpmf_next_metadata_in(packets, window, more, forced, rows)
}
