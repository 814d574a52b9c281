// Code over any line at all.
ghost use Rattle.std.specs.Prelude.{◌≡◌, MatchResult};
ghost use Rattle.std.specs.Result.{result_err};
ghost use Rattle.line.specs.Lines.{put_answer};
ghost use Rattle.line_tests.specs.Swaps.{Swapped};

use calls::refusal::Refusal;
use line::line::Line;
use pending::client::Client;

// Puts a client in line and takes the next one out of it. All others come nearer to their turn.
pub fn swap<L: Line>(line: &mut L, client: u8) -> Result<Option<Client>, Refusal>
    ensures same { (L.view line.new).size ≡ (L.view line.old).size }
    ensures answer { result_err result ≡ result_err (put_answer (L.view line.old) client) }
    ensures moves { MatchResult result (Swapped (L.view line.old) client (L.view line.new)) (λ _. line.new ≡ line.old) }
{
    line.put(client)?;
    Ok(line.take())
}
