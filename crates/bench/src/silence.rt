// Why a frame that has ended draws no reply. The words are the programs': the crate of `Silence` is in the archives for C, and prints nothing.
use device_replies::Answer;
use device_turns::Silence;

// The words behind the mode; none behind that of another answer.
pub(crate) fn reason(answer: Answer) -> &'static str {
    match answer {
        Answer::Silent { why } => match why {
            Silence::OverheardReply => " overheard reply",
            Silence::UnreadableFrame => " unreadable frame",
            Silence::WrongCrc => " wrong CRC",
            Silence::NotSelected => " not selected",
            Silence::SelectWithoutMatch => " Select without a match",
        },
        _ => "",
    }
}
