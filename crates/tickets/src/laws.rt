ghost use Rattle.tickets.specs.Laws.{IssuedTicketsOpen};

use aes_gcm::sealing_laws;

/// What was issued opens with its number and its content, unless memory runs out.
pub fn issued_tickets_open()
    ensures { IssuedTicketsOpen }
{
    sealing_laws();
}
