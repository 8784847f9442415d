ghost use Rattle.esp_packets.specs.Laws.{PaddingIsShortest, SealedPacketsOpen};

use aes_gcm::sealing_laws;
use replay_set::meaning_is_unique;

/// The padding is the shortest that makes the plaintext a multiple of four octets.
pub fn padding_is_shortest()
    ensures { PaddingIsShortest }
{}

/// What was sealed opens with its number and payload, where the number is covered and fresh.
pub fn sealed_packets_open()
    ensures { SealedPacketsOpen }
{
    sealing_laws();
    meaning_is_unique();
}
