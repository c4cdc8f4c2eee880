/// The commands of MySQL's client: the first byte of a request's payload. MySQL's source:
/// `enum_server_command`.
///
/// There is no conversion from a number; `command as u8` is a command's number.
#[derive(Clone, Copy, Debug, PartialEq, Eq, Hash)]
pub enum Command {
    /// Internal to the server, for an idle connection.
    COM_SLEEP = 0,
    /// Ends the connection.
    COM_QUIT = 1,
    /// Changes the default schema.
    COM_INIT_DB = 2,
    /// Runs a query.
    COM_QUERY = 3,
    /// Asks for the columns of a table.
    COM_FIELD_LIST = 4,
    /// Creates a schema.
    COM_CREATE_DB = 5,
    /// Drops a schema.
    COM_DROP_DB = 6,
    /// Flushes caches and logs.
    COM_REFRESH = 7,
    /// Not used any more; it was `COM_SHUTDOWN`.
    COM_DEPRECATED_1 = 8,
    /// Asks for the server's statistics as text.
    COM_STATISTICS = 9,
    /// Asks for the list of connections.
    COM_PROCESS_INFO = 10,
    /// Internal to the server, for a connection that is being established.
    COM_CONNECT = 11,
    /// Ends another connection.
    COM_PROCESS_KILL = 12,
    /// Writes debug information to the server's log.
    COM_DEBUG = 13,
    /// Asks whether the server is alive.
    COM_PING = 14,
    /// Internal to the server.
    COM_TIME = 15,
    /// Internal to the server.
    COM_DELAYED_INSERT = 16,
    /// Changes the user of the connection.
    COM_CHANGE_USER = 17,
    /// Asks for a binary log from a position on.
    COM_BINLOG_DUMP = 18,
    /// Asks for a table.
    COM_TABLE_DUMP = 19,
    /// Internal to the server, for a replica's connection.
    COM_CONNECT_OUT = 20,
    /// Registers a replica.
    COM_REGISTER_SLAVE = 21,
    /// Prepares a statement.
    COM_STMT_PREPARE = 22,
    /// Runs a prepared statement.
    COM_STMT_EXECUTE = 23,
    /// Sends a part of a parameter's data.
    COM_STMT_SEND_LONG_DATA = 24,
    /// Closes a prepared statement.
    COM_STMT_CLOSE = 25,
    /// Resets a prepared statement.
    COM_STMT_RESET = 26,
    /// Sets options of the connection.
    COM_SET_OPTION = 27,
    /// Fetches rows of a cursor.
    COM_STMT_FETCH = 28,
    /// Internal to the server, for a background thread.
    COM_DAEMON = 29,
    /// Asks for a binary log by its GTIDs.
    COM_BINLOG_DUMP_GTID = 30,
    /// Resets the session of a connection.
    COM_RESET_CONNECTION = 31,
}
