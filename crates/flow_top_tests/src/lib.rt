//! Tests of the top call over files and a sink in memory, apart from it, so that a change of one doesn't prove the other again: calls of
//! files and sink that fail (`tests`; each in turn: `in_turn`), files and a sink of one byte a call (`slow`), words without measure
//! (`long_words`), monitors that hear (`heard`), and copies of program trees (`copies`).
//!
//! Want of memory is the one answer that no contract ties to a cause. So each public call that may give it is called once with ample memory,
//! by a test that wants another answer:
//!
//! | Calls | Reached by |
//! | --- | --- |
//! | `lex`, `parse`, `check`, `check_state`, `front` | `in_turn`: `check p` |
//! | `parse_expr`, `parse_type`, `type_expr` | flow_text_tests `reading`, flow_eval_tests `typing` |
//! | `show` | `in_turn`: `format p` |
//! | `layout`, `group`, `lower`, `compile`, `print_classes` | `in_turn`: `compile p` |
//! | `read_classes`, `validate` | `in_turn`: `exec p w` |
//! | `read_world`, `World::start`, `World::event`, `Machine::deliver`, `Machine::arrive` | `in_turn`: `run p w`; the examples |
//! | `gen_program`, `gen_world` | `in_turn`: `bench 2 7` |
//! | `print_world` | flow_parts_tests `worlds` |
//! | `catcher`; `eval`, `call` | flow_parts_tests `lowering`; flow_eval_tests `countdown` |
//! | the calls of `Cells`, `Streams`, `Frames`, `Heap` | flow_parts_tests `cells`, flow_cancel_tests `streams`, `frames`, `heaps` |
//! | the calls of `Timers`, `Net`, `Disk` | flow_parts_tests `timers`, `links`, `disks` |
//! | `Machine::new`, `start_main`, `stop`; `World::frames`, `callbacks` | flow_machine_tests `running`, `bursts`, `worlds` |
//! | `Panel::attach`, `LineBuf::new`, `LineVec::put`, `read_line` | flow_machine_tests `watched`, `lines`; flow_parts_tests `lines` |
//! | `Value::copy`, `refs`; `Name::new`, `Text::new` and their copies | flow_parts_tests `values`, `files` |
//! | the calls of `MemFiles` and `MemSink` | `in_turn`; flow_parts_tests `files` |
//! | copies of trees | `copies` |
#![tactic(auto)]

#[cfg(test)]
mod copies;
#[cfg(test)]
mod heard;
#[cfg(test)]
mod in_turn;
#[cfg(test)]
mod long_words;
#[cfg(test)]
mod slow;
#[cfg(test)]
mod tests;
