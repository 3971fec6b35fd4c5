//! Rows of programs: what the machine comes to, computed from the definitions.

ghost use Rattle.lua_code.specs.rows.Order as order_rows;
ghost use Rattle.lua_code.specs.rows.Scopes as scopes_rows;
ghost use Rattle.lua_code.specs.rows.Handlers as handlers_rows;
ghost use Rattle.lua_code.specs.rows.Errors as errors_rows;
ghost use Rattle.lua_code.specs.rows.Ticks as ticks_rows;
ghost use Rattle.lua_code.specs.rows.Library as library_rows;
ghost use Rattle.lua_code.specs.rows.Channels as channels_rows;
ghost use Rattle.lua_code.specs.rows.Games as games_rows;

/// Rows of the machine: order of evaluation, assignment and lists (manual §2.4.3, §2.5).
pub fn rows_of_order()
    ensures { order_rows.Rows }
{}

/// Rows of the machine: locals, closures and loops (manual §2.4, §2.6).
pub fn rows_of_scopes()
    ensures { scopes_rows.Rows }
{}

/// Rows of the machine: metamethods (manual §2.8).
pub fn rows_of_handlers()
    ensures { handlers_rows.Rows }
{}

/// Rows of the machine: errors, their places, and pcall (manual §2.7, §5.1).
pub fn rows_of_errors()
    ensures { errors_rows.Rows }
{}

/// Rows of the machine: ticks: a statement, a turn of a loop and a call take one each.
pub fn rows_of_ticks()
    ensures { ticks_rows.Rows }
{}

/// Rows of the machine: functions of the library (manual §5).
pub fn rows_of_library()
    ensures { library_rows.Rows }
{}

/// Rows of the machine: asks of Channels and their replies (LÖVE wiki, `Channel`).
pub fn rows_of_channels()
    ensures { channels_rows.Rows }
{}

/// Rows of the machine: modules, files, threads and events (LÖVE wiki, `love`).
pub fn rows_of_games()
    ensures { games_rows.Rows }
{}
